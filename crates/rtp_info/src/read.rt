//! Reading an RTP-Info field of RTSP 2.0.
ghost use Rattle.std.specs.Prelude.{◌≡◌, [], ◌∷◌, option_map};
ghost use Rattle.std.specs.Option.{ok_or};
ghost use Rattle.gate_bytes.specs.Outcomes.{UnlessMemory};
ghost use Rattle.rtp_info.specs.Specs.{spec_of};
ghost use Rattle.rtp_info.specs.Infos.{info_of, info_refusal};

use crate::part::first_part;
use crate::spec::read_spec;
use crate::{Info, InfoEntry, InfoFault};
use gate_bytes::trim;
use std::alloc::Global;

/// What an RTP-Info field says of each stream, in its order: specs with commas between them. Of each
/// spec the first group counts, and in it the first `seq` and the first `rtptime` (RFC 7826, 18.45).
pub fn read_two(alloc: Global, value: &[u8]) -> Result<Info<'_>, InfoFault>
    ensures { UnlessMemory info_refusal result (ok_or (info_of value.now) InfoFault.Grammar) }
{
    let (first, more) = first_part(b',', value);
    let mut info = match read_first(alloc, trim(first)) {
        Ok(info) => info,
        Err(fault) => return Err(fault),
    };
    let mut left = more;
    while let Some(rest) = left {
        let (spec, more) = first_part(b',', rest);
        let entry = match read_entry(trim(spec)) {
            Ok(entry) => entry,
            Err(fault) => return Err(fault),
        };
        if info.push(entry).is_err() {
            return Err(InfoFault::Memory);
        }
        left = more;
    }
    Ok(info)
}

/// The list of the one entry that a spec says.
fn read_first(alloc: Global, spec: &[u8]) -> Result<Info<'_>, InfoFault>
    ensures { UnlessMemory info_refusal result
        (ok_or (option_map (λ entry. entry ∷ []) (spec_of spec.now)) InfoFault.Grammar) }
{
    match Info::of(alloc, read_entry(spec)?) {
        Ok(info) => Ok(info),
        Err(_) => Err(InfoFault::Memory),
    }
}

/// The entry that a spec says.
fn read_entry(spec: &[u8]) -> Result<InfoEntry<'_>, InfoFault>
    ensures { result ≡ ok_or (spec_of spec.now) InfoFault.Grammar }
{
    match read_spec(spec) {
        Some(entry) => Ok(entry),
        None => Err(InfoFault::Grammar),
    }
}
