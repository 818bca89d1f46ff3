//! What a core is: the thing behind a gateway, which takes the events of all connections, one after another, and hands
//! out what each of them asks for.
ghost use Rattle.std.specs.Prelude.{◌≡◌, ℕ, Bool, true, false, List, [], ◌∷◌, IfOk, IfErr, OnOk, OnErr, IsOk, IsSome};
ghost use Rattle.rtsp_uri.specs.declared.base.Bases.{Bases};
ghost use Rattle.gateway_claim.specs.Happenings.{HistoryEntry, entry_of, entering, is_alive, fault_in, needs_memory, IsShort};
ghost use Rattle.gateway_claim.specs.Cores.{IsCoreHistory, IsNewTo, IsTimely, NoneWaits, IsOwnKey, TellsStanding, GivesKey, ever_entered, IsOrderly};

use crate::connection::{ConnectionKey, Standing};
use crate::event::{Event, Outcome, UpCause};
use gate_bytes::Memory;
use rtsp_uri::Bases;
use std::alloc::Global;

/// A core of a gateway. It stands for the histories of what happened to it, and each call adds to them what it says.
///
/// Nothing here makes a core: whoever runs one is given it.
pub trait Core: Send + Drop {
    ghost use Rattle.gateway_claim.specs.declared.event.Event.{Event};
    ghost use Rattle.gateway_claim.specs.declared.connection.ConnectionKey.{ConnectionKey};

    /// What an event will do. All memory for it is taken.
    type Plan: Drop;

    /// The addresses with which the core was made. No call changes them.
    ghost bases: { Self → Bases };

    /// The core stands for this history, whose newest entry is first.
    ghost stands: { Self → List HistoryEntry → Type 0 };

    /// An entry follows these ones, between these addresses, whichever core of this type it is.
    ghost follows: { Bases → List HistoryEntry → HistoryEntry → Type 0 };

    /// This was planned for the event, and nothing happened since.
    ghost planned: { Self → Event → Self.Plan → Type 0 };

    /// The core, as it is, keeps the connection with this number under this key.
    ghost has_key: { Self → ℕ → ConnectionKey → Type 0 };

    /// Whether a request of a connection would wait, between these addresses and after these entries.
    ghost is_busy: { Bases → ℕ → List HistoryEntry → Bool };

    /// How many requests of a connection wait, between these addresses and after these entries.
    ghost waits: { Bases → ℕ → List HistoryEntry → ℕ };

    /// How many frames were dropped in these entries.
    ghost dropped: { List HistoryEntry → ℕ };

    /// Whether the memory for one connection more is taken.
    ghost is_prepared: { Self → Bool };

    /// Takes the memory for one connection more, and for all that its events can need, so that it can enter. Nothing else
    /// changes. Where that was taken already no memory is.
    fn prepare(&mut self, alloc: Global) -> Result<(), Memory>
        ensures stands { (T : List HistoryEntry) → stands self.old T → stands self.new T }
        ensures prepared { OnOk result (is_prepared self.new ≡ true) }
        ensures free { is_prepared self.old ≡ true → IsOk result }
        ensures bases { bases self.new ≡ bases self.old };

    /// A connection enters, under a number that never entered. Where its memory is taken, and after the end of the
    /// connection to the server, no memory is taken.
    fn enter(&mut self, alloc: Global, conn: u32) -> Result<(), Memory>
        requires { ∥ IsNewTo (stands self.old) conn ∥₁ }
        ensures ok { OnOk result
            ((T : List HistoryEntry) → stands self.old T
            → ever_entered conn T ≡ false
            → stands self.new (entering conn ∷ T)) }
        ensures err { OnErr result ((T : List HistoryEntry) → stands self.old T → stands self.new T) }
        ensures free { (T : List HistoryEntry) → stands self.old T → IsSome (fault_in T) → IsOk result }
        ensures prepared { is_prepared self.old ≡ true → IsOk result }
        ensures bases { bases self.new ≡ bases self.old };

    /// What an event will do. Nothing changes, and all memory for it is taken. Only a request of a client or a message of
    /// the server may need memory.
    fn plan(&self, alloc: Global, event: &Event) -> Result<Self::Plan, Memory>
        ensures plan { IfOk result (planned self.now event.now) }
        ensures free { needs_memory event.now ≡ false → IsOk result };

    /// What an event of a connection will do, as [`plan`](Core::plan) tells it, by the key that [`standing`](Core::standing) gave
    /// with the connection. The core searches for no number. The key serves as long as the core is as it was then: once an event
    /// was carried out it is to be asked for again.
    fn plan_at(
        &self,
        alloc: Global,
        event: &Event,
        key: ConnectionKey,
    ) -> Result<Self::Plan, Memory>
        requires { IsOwnKey (has_key self.now) event.now key }
        ensures plan { IfOk result (planned self.now event.now) }
        ensures free { needs_memory event.now ≡ false → IsOk result };

    /// Carries out the plan for an event: what it hands out is the next entry of the history. It takes no memory, and
    /// can't be refused.
    fn commit(&mut self, event: Event, plan: Self::Plan) -> Outcome
        requires { planned self.old event plan }
        ensures stands { (T : List HistoryEntry) → stands self.old T
            → stands self.new (entry_of event result ∷ T) }
        ensures short { IsShort result }
        ensures bases { bases self.new ≡ bases self.old };

    /// Takes an event: what it hands out is the next entry of the history. After `Memory` nothing was handed out, and the
    /// event is given back. Only a request of a client or a message of the server may need memory.
    fn step(&mut self, alloc: Global, event: Event) -> Result<Outcome, (Event, Memory)>
        ensures ok { IfOk result (λ outcome.
            (T : List HistoryEntry) → stands self.old T → stands self.new (entry_of event outcome ∷ T)) }
        ensures short { IfOk result (λ outcome. IsShort outcome) }
        ensures given_back { IfErr result (λ refused. refused.0 ≡ event) }
        ensures err { OnErr result ((T : List HistoryEntry) → stands self.old T → stands self.new T) }
        ensures free { needs_memory event ≡ false → IsOk result }
        ensures bases { bases self.new ≡ bases self.old };

    /// Where a connection stands, by one look-up: `Closed` where it is not alive, else `Busy` where a request of it would wait,
    /// and else `Ready` with the key under which the core keeps it now. It tells the same as [`alive`](Core::alive) and
    /// [`busy`](Core::busy).
    fn standing(&self, conn: u32) -> Standing
        ensures tells { (T : List HistoryEntry) → stands self.now T
            → TellsStanding (is_alive conn T) (is_busy (bases self.now) conn T) result }
        ensures key { GivesKey (has_key self.now conn) result };

    /// Whether a request of a connection would wait.
    fn busy(&self, conn: u32) -> bool
        ensures { (T : List HistoryEntry) → stands self.now T → result ≡ is_busy (bases self.now) conn T };

    /// How many requests of a connection wait.
    fn waiting(&self, conn: u32) -> usize
        ensures { (T : List HistoryEntry) → stands self.now T → result ≡ waits (bases self.now) conn T };

    /// Whether a connection is alive: it entered while the connection to the server stood, and neither was closed nor has
    /// the connection to the server ended.
    fn alive(&self, conn: u32) -> bool
        ensures { (T : List HistoryEntry) → stands self.now T → result ≡ is_alive conn T };

    /// How many frames were dropped; it stops at the greatest number of 64 bits.
    fn dropped(&self) -> u64
        ensures { (T : List HistoryEntry) → stands self.now T → result ≡ dropped T };

    /// Why the connection to the server ended, where it did.
    fn ended(&self) -> Option<UpCause>
        ensures { (T : List HistoryEntry) → stands self.now T → result ≡ fault_in T };

    /// The addresses with which the core was made.
    fn bases(&self) -> &Bases
        ensures { result.now ≡ bases self.now };

    /// What the core stands for is a history of it.
    ghost history: { (core : Self) (T : List HistoryEntry) → stands core T
        → IsCoreHistory follows (bases core) T };

    /// At most one entry with a given happening follows.
    ghost one_next: { (between : Bases) (T : List HistoryEntry) (one other : HistoryEntry)
        → follows between T one
        → follows between T other
        → one.happening ≡ other.happening
        → one ≡ other };

    /// An entry that follows a history hands out and closes what an entry may.
    ghost orderly: { (between : Bases) (T : List HistoryEntry) (entry : HistoryEntry)
        → IsCoreHistory follows between T
        → follows between T entry
        → IsOrderly T entry };

    /// None waits before anything happened.
    ghost none_waits: { (between : Bases) → NoneWaits (waits between) [] };

    /// Where none waits, an event other than an item of a busy client leaves none waiting.
    ghost none_waits_next: { (between : Bases) (T : List HistoryEntry) (entry : HistoryEntry)
        → IsCoreHistory follows between T
        → follows between T entry
        → IsTimely (is_busy between) T entry.happening
        → NoneWaits (waits between) T
        → NoneWaits (waits between) (entry ∷ T) };
}
