//! What is played: a scene.

use crate::draft::{Draft, boxed};
use crate::edge::tell_edge;
use crate::links::{LinkPlay, put};
use crate::reader::read_all;
use crate::streams::{StreamsPlay, tell_numbers};
use crate::writers::{DeskPlay, WriterPlay};
use std::alloc::Global;
use std::net::{Net, TcpListener, TcpStream};
use std::str;
use std::sync::Wait;
use std::thread::Threads;
use test_text::{CaseAnswer, CaseFault, CasePlayer, first_word};

/// The things of a scene, and how the next one behaves.
#[derive(Drop)]
struct LinksScene {
    draft: Box<Draft>,
    streams: Box<StreamsPlay>,
    links: Box<LinkPlay>,
    writer: Option<Box<WriterPlay>>,
    desk: Option<Box<DeskPlay>>,
}

/// A scene in which nothing was said, and nothing made.
fn new_scene(alloc: Global) -> Result<Box<LinksScene>, CaseFault> {
    let scene = LinksScene {
        draft: boxed(alloc, Draft::new(alloc))?,
        streams: boxed(alloc, StreamsPlay::new(alloc)?)?,
        links: boxed(alloc, LinkPlay::new())?,
        writer: None,
        desk: None,
    };
    boxed(alloc, scene)
}

impl LinksScene {
    /// Makes a thing, or the call that a word is, and tells what came.
    fn play<W: Wait>(
        &mut self,
        rt: &W,
        alloc: Global,
        word: &[u8],
        more: &[u8],
        answer: &mut CaseAnswer,
    ) {
        match str::from_utf8(word).unwrap_or("") {
            "source" => self.streams.open(alloc, &mut self.draft, more, answer),
            "read-source" => self.streams.read(alloc, answer),
            "sink" => self.streams.make_sink(alloc, &mut self.draft, answer),
            "write-all" => self.streams.write(alloc, more, answer),
            "tell-sink" => self.streams.tell_sink(answer),
            _ => self.make(rt, alloc, word, more, answer),
        }
    }

    /// The same of the other things.
    fn make<W: Wait>(
        &mut self,
        rt: &W,
        alloc: Global,
        word: &[u8],
        more: &[u8],
        answer: &mut CaseAnswer,
    ) {
        match str::from_utf8(word).unwrap_or("") {
            "numbers" => tell_numbers(alloc, more, answer),
            "read-all" => read_all(rt, alloc, &mut self.draft, more, answer),
            "writer" => put(
                WriterPlay::new(alloc, &mut self.draft),
                &mut self.writer,
                answer,
            ),
            "desk" => put(DeskPlay::new(alloc), &mut self.desk, answer),
            _ => self.call(rt, alloc, word, more, answer),
        }
    }

    /// Makes the call that a word is, at what was made last.
    fn call<W: Wait>(
        &mut self,
        rt: &W,
        alloc: Global,
        word: &[u8],
        more: &[u8],
        answer: &mut CaseAnswer,
    ) {
        let draft = &mut self.draft;
        if let Some(writer) = &mut self.writer {
            writer.call(rt, alloc, draft, word, more, answer);
        } else if let Some(desk) = &mut self.desk {
            desk.call(rt, alloc, word, more, answer);
        } else {
            self.links.call(alloc, draft, word, more, answer);
        }
    }
}

/// A scene, where one has begun.
#[derive(Drop)]
pub struct LinksPlay<'a, R: Wait + Net<Listener = TcpListener, Stream = TcpStream> + Threads> {
    rt: &'a R,
    host: HostRuntime,
    scene: Option<Box<LinksScene>>,
}

impl<'a, R: Wait + Net<Listener = TcpListener, Stream = TcpStream> + Threads> LinksPlay<'a, R> {
    /// No scene has begun.
    pub fn new(rt: &'a R, host: HostRuntime) -> LinksPlay<'a, R> {
        LinksPlay {
            rt,
            host,
            scene: None,
        }
    }
}

impl<'a, R: Wait + Net<Listener = TcpListener, Stream = TcpStream> + Threads> CasePlayer
    for LinksPlay<'a, R> {
    fn play(&mut self, alloc: Global, line: &[u8], answer: &mut CaseAnswer) {
        let (word, more) = first_word(line);
        if word == b"scene".as_slice() {
            put(new_scene(alloc), &mut self.scene, answer);
        } else if word == b"edge".as_slice() {
            tell_edge(self.rt, self.host, alloc, more, answer);
        } else if let Some(scene) = &mut self.scene {
            scene.play(self.rt, alloc, word, more, answer);
        } else {
            answer.unreadable();
        }
    }
}
