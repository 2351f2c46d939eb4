// How far a command is, on standard error.

use image_options::Telling;
use std::io::IsTerminal;
use std::time::Instant;

/// Tells once in a second how far a command is, where standard error is a terminal or it is always wanted: there on one line, else on
/// a line each time. What goes wrong with that is no matter.
#[derive(Drop)]
pub struct Teller<'a> {
    rt: &'a HostRuntime,
    telling: Telling,
    /// Whether standard error is a terminal.
    terminal: bool,
    /// When it was told last, or begun; none where nobody looks.
    since: Option<Instant>,
    /// Whether a line is begun.
    told: bool,
}

impl<'a> Teller<'a> {
    /// One that begins now.
    pub fn new(rt: &'a HostRuntime, telling: Telling) -> Teller<'a> {
        let terminal = rt.stderr().is_terminal();
        let since = if telling == Telling::Always || (telling == Telling::Terminal && terminal) {
            Instant::now(rt).ok()
        } else {
            None
        };
        Teller {
            rt,
            telling,
            terminal,
            since,
            told: false,
        }
    }

    /// When it is told.
    pub fn telling(&self) -> Telling {
        self.telling
    }

    /// Whether a second has passed since it was told last.
    fn is_due(&mut self) -> bool {
        let Some(since) = self.since else {
            return false;
        };
        let Ok(now) = Instant::now(self.rt) else {
            return false;
        };
        if now.duration_since(since).as_secs() == 0 {
            return false;
        }
        self.since = Some(now);
        self.told = self.terminal;
        true
    }

    /// What stands before and behind what is told.
    fn ends(&self) -> (&'static str, &'static str) {
        if self.terminal {
            ("\r", "")
        } else {
            ("", "\n")
        }
    }

    /// Tells how many bytes of an input are read.
    pub fn tell_read(&mut self, name: &str, bytes: u64) {
        if self.is_due() {
            let mebibytes = bytes / 1_048_576;
            let (before, behind) = self.ends();
            let _ = eprint!(self.rt; "{before}lochknife: {name}: {mebibytes} MiB read{behind}");
        }
    }

    /// Tells how many of so many bytes are written.
    pub fn tell_written(&mut self, bytes: u64, all: u64) {
        if self.is_due() {
            let percent = bytes as u128 * 100 / all.max(1) as u128;
            let (before, behind) = self.ends();
            let _ = eprint!(self.rt; "{before}lochknife: {percent} % written{behind}");
        }
    }

    /// Tells no more.
    pub fn hush(&mut self) {
        self.end();
        self.since = None;
    }

    /// Ends the line, if one was begun.
    pub fn end(&mut self) {
        if self.told {
            self.told = false;
            let _ = eprintln!(self.rt; "");
        }
    }
}
