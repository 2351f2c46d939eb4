// An audit, and what callers ask of it.
ghost use Rattle.std.specs.Prelude.{◌≡◌, ◌+◌, ◌<◌, ◌≤◌, [], IfErr, IfOk, None, length, map, replicate, slice_index_or, true, ℕ};
ghost use Rattle.sector.specs.declared.refusal.Refusal.TheVariants.{NoMemory};
ghost use Rattle.in_flight.specs.Kinds.{in_flight};
ghost use Rattle.plain_machine.specs.Plain.{shown_of};
ghost use Rattle.volume.specs.Volumed.{is_loud_in_all, plain_of};
ghost use Rattle.volume.specs.Causes.{lives_of};
ghost use Rattle.audited_volume.specs.Books.{count_of};
ghost use Rattle.audited_volume.specs.Earned.{AreEarned};
ghost use Rattle.audited_volume.specs.Entries.{HasVerdict};
ghost use Rattle.audited_volume.specs.Noted.{kept_count, mays_of};
ghost use Rattle.audited_volume.specs.Inside.{AllInside};
ghost use Rattle.audited_volume.specs.PlacesTaken.{places_of};
ghost use Rattle.audited_volume.specs.Own.{MeetsOwn};
ghost use Rattle.audited_volume.specs.Replay.{AllLawful, replay};
ghost use Rattle.audited_volume.specs.Seats.{flight_in};
ghost use Rattle.audited_volume.specs.Undone.{AllShow, AllUndone, left_of, taken_in};

use crate::bases::base_of;
use crate::entry::{Base, Entry, HeldRequest, Receipt, Verdict};
use crate::looking::{is_loud_now, lives_in, mays_in};
use crate::verdict::verdict_of;
use layers::Layered;
use sector::Refusal;
use std::alloc::Global;
use std::marker::Model;
use volume::Volume;
use volume_lifetime::LivedVolume;

/// A journal has at most so many entries.
pub const MAX_ENTRIES: usize = 65_536;

/// There are seats 0 to 8.
pub const SEATS: usize = 9;

/// A volume, what it began with, and a journal of its calls.
#[derive(Drop)]
pub struct Audit<B: Layered> {
    pub(crate) volume: LivedVolume<B>,
    pub(crate) base: Base,
    /// How many places were taken before it began, since the last checkpoint.
    pub(crate) taken: usize,
    pub(crate) entries: Vec<Entry>,
    pub(crate) held: Vec<HeldRequest>,
    /// Which snapshots were live when it looked last, in order of attaching.
    pub(crate) lives: Vec<bool>,
    /// Which of their stores may still overflow.
    pub(crate) may: Vec<bool>,
    /// How many request entries each seat has, those that were folded among them.
    pub(crate) counts: Vec<u64>,
    /// How many of each seat's were folded into the base.
    pub(crate) folded: Vec<u64>,
    /// Whether no device that its volume had dropped writes.
    pub(crate) loud: bool,
    pub(crate) alloc: Global,
}

impl<B: Layered> Model for Audit<B> {
    ghost use Rattle.audited_volume.specs.Books.{AuditShape};

    ghost Value = { AuditShape B };

    ghost use Rattle.std.specs.Prelude.{map, vec_capacity};
    ghost use Rattle.volume.specs.Volumed.{is_loud_in_all, plain_of};
    ghost use Rattle.audited_volume.specs.Books.{IsKept, shown_in_base};
    ghost use Rattle.audited_volume.specs.Seats.{seated};

    ghost view = { λ a. record { volume = a.volume; base = shown_in_base a.base; taken = a.taken; entries = a.entries.items; held = map seated a.held.items; lives = a.lives.items; may = a.may.items; loud = a.loud; folded = a.folded.items } };

    ghost invariant = { λ a. IsKept a.volume (is_loud_in_all B.layers a.volume) a.loud (plain_of B.contents B.layers a.volume) (record { base = shown_in_base a.base; taken = a.taken; entries = a.entries.items; held = a.held.items; lives = a.lives.items; may = a.may.items; counts = a.counts.items; folded = a.folded.items; room = vec_capacity a.entries }) };
}

impl<B: Layered> Audit<B> {
    /// Takes a volume with no request in flight, with what snapshots there are, and beside a merge too: a copy of each array
    /// that it shows, by `Volume::peek`, and the room of all entries. A spoiled snapshot has no array, nor has the one that is
    /// being merged. Where memory is refused, the volume is given back.
    pub fn new(alloc: Global, volume: LivedVolume<B>) -> Result<Audit<B>, (Refusal, LivedVolume<B>)>
        requires quiet { volume.flights ≡ [] }
        ensures ok { IfOk result (λ a. (a.volume ≡ volume) × (a.entries ≡ []) × (a.held ≡ []) × (a.lives ≡ lives_of volume) × (a.may ≡ mays_of volume) × (a.loud ≡ is_loud_in_all B.layers volume)) }
        ensures base { IfOk result (λ a. a.loud ≡ true → a.base ≡ shown_of (plain_of B.contents B.layers volume)) }
        ensures taken { IfOk result (λ a. a.taken ≡ 0) }
        ensures folded { IfOk result (λ a. a.folded ≡ replicate 9 0) }
        ensures err { IfErr result (λ e. e ≡ record { 0 = NoMemory; 1 = volume }) }
    {
        // A look: it has eight snapshots at most.
        let _ = volume.len();
        Audit::going_on(alloc, volume, 0)
    }

    /// As `new`, where so many places of the journal are taken already. With the live snapshots, and those of them that may still
    /// overflow, they are 65,536 at most, and no more than what the volume was asked takes.
    pub fn going_on(
        alloc: Global,
        volume: LivedVolume<B>,
        taken: usize,
    ) -> Result<Audit<B>, (Refusal, LivedVolume<B>)>
        requires quiet { volume.flights ≡ [] }
        requires room { taken + kept_count (lives_of volume) (mays_of volume) ≤ 65_536 }
        requires earned { AreEarned (taken + kept_count (lives_of volume) (mays_of volume)) volume }
        ensures ok { IfOk result (λ a. (a.volume ≡ volume) × (a.entries ≡ []) × (a.held ≡ []) × (a.lives ≡ lives_of volume) × (a.may ≡ mays_of volume) × (a.loud ≡ is_loud_in_all B.layers volume)) }
        ensures base { IfOk result (λ a. a.loud ≡ true → a.base ≡ shown_of (plain_of B.contents B.layers volume)) }
        ensures taken { IfOk result (λ a. a.taken ≡ taken) }
        ensures folded { IfOk result (λ a. a.folded ≡ replicate 9 0) }
        ensures err { IfErr result (λ e. e ≡ record { 0 = NoMemory; 1 = volume }) }
    {
        let Ok(base) = base_of(alloc, &volume) else {
            return Err((Refusal::NoMemory, volume));
        };
        let Ok(entries) = Vec::with_capacity(alloc, MAX_ENTRIES) else {
            return Err((Refusal::NoMemory, volume));
        };
        let Ok(lives) = lives_in(alloc, &volume) else {
            return Err((Refusal::NoMemory, volume));
        };
        let Ok(may) = mays_in(alloc, &volume) else {
            return Err((Refusal::NoMemory, volume));
        };
        let Ok(counts) = vec![in alloc; 0u64; SEATS] else {
            return Err((Refusal::NoMemory, volume));
        };
        let Ok(folded) = vec![in alloc; 0u64; SEATS] else {
            return Err((Refusal::NoMemory, volume));
        };
        let loud = is_loud_now(&volume);
        Ok(Audit {
            volume,
            base,
            taken,
            entries,
            held: Vec::new(alloc),
            lives,
            may,
            counts,
            folded,
            loud,
            alloc,
        })
    }

    /// The volume, for all that it may be asked.
    pub fn volume(&self) -> &Volume<B>
        ensures { result.now ≡ self.now.volume }
    {
        self.volume.volume()
    }

    /// What stands in the journal. Where no device dropped writes, the entries replayed on the base arrays give the arrays
    /// and states that the volume's devices stand for, and each reply is the plain machine's at its place. A snapshot that no request
    /// wrote since it was taken, or since the base, shows what it showed then, or is lost. The merge of such a one gives the origin what
    /// it showed itself when that was taken over a fresh store, and else what that snapshot showed; and once no merge is begun the origin disk's
    /// own bytes are what the origin shows. Where a seat reads a byte behind a write of its own, it gets what it wrote, or an entry
    /// between the two changed that.
    pub fn entries(&self) -> &[Entry]
        ensures value { result.now ≡ self.now.entries }
        ensures replay { self.now.loud ≡ true → replay self.now.base self.now.entries ≡ shown_of (plain_of B.contents B.layers self.now.volume) }
        ensures lawful { self.now.loud ≡ true → AllLawful self.now.base self.now.entries }
        ensures undone { self.now.loud ≡ true → AllUndone (taken_in self.now.base) self.now.base self.now.entries }
        ensures keeps { self.now.loud ≡ true → AllShow (left_of (taken_in self.now.base) self.now.base self.now.entries) (replay self.now.base self.now.entries) }
        ensures own { self.now.loud ≡ true → (seat : ℕ) → MeetsOwn seat self.now.entries }
        ensures inside { self.now.loud ≡ true → AllInside self.now.base self.now.entries }
        ensures disk { self.now.loud ≡ true → (replay self.now.base self.now.entries).begun ≡ None → (replay self.now.base self.now.entries).origin ≡ B.contents self.now.volume.origin }
    {
        self.entries.as_slice()
    }

    /// Whether a receipt is for an entry of the journal: `Folded` where a checkpoint folded the seat's request entry with its
    /// count, `Agrees` where that stands in the journal with its request and its reply, else `Differs`.
    pub fn check(&self, receipt: &Receipt) -> Verdict
        ensures { HasVerdict (slice_index_or self.now.folded receipt.now.seat 0) self.now.entries receipt.now result }
    {
        let folded = match self.folded.get(receipt.seat as usize) {
            Some(count) => *count,
            None => 0,
        };
        verdict_of(self.entries.as_slice(), folded, receipt)
    }

    /// How many request entries a seat has, from 0 to 8: those in the journal, and those that checkpoints folded.
    pub fn count(&self, seat: u8) -> u64
        requires { seat < 9 }
        ensures { result ≡ count_of seat self.now }
    {
        self.counts[seat as usize]
    }

    /// Whether it drops no writes, and never did: then its entries say what its devices' bytes stand for.
    pub fn is_loud(&self) -> bool
        ensures value { result ≡ self.now.loud }
        ensures volume { result ≡ true → is_loud_in_all B.layers self.now.volume ≡ true }
    {
        self.loud
    }

    /// A look at the requests in flight, which does nothing: those that seats submitted are the volume's.
    pub fn look_at_requests(&self)
        ensures { map flight_in self.now.held ≡ map in_flight self.now.volume.flights }
    {
        let _ = &self.held;
    }

    /// A look at the places of the journal, which does nothing: those that are kept for snapshots are for the volume's live ones,
    /// and for its stores that may still overflow, whatever its devices do; and what the volume was asked takes no more, and a few.
    pub fn look_at_places(&self)
        ensures lives { self.now.lives ≡ lives_of self.now.volume }
        ensures may { self.now.may ≡ mays_of self.now.volume }
        ensures earned { AreEarned (places_of self.now) self.now.volume }
    {
        let _ = &self.held;
    }

    /// How many requests are in flight.
    pub fn in_flight(&self) -> usize
        ensures { result ≡ length self.now.held }
    {
        self.held.len()
    }
}
