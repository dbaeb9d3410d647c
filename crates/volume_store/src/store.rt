//! A mounted cartridge.

ghost use Rattle.std.specs.Prelude.{◌≡◌, ◌≢◌, ◌↔◌, ◌+◌, ◌-◌, ◌*◌, ◌^◌, ◌<◌, ◌≤◌, true, Err, IfOk, IfSome, OnOk, slice_get, length};
ghost use Rattle.qic_base.specs.Alone.{around, reading};
ghost use Rattle.drive_spec.specs.Terms.{is_protected};
ghost use Rattle.drive_spec.specs.Deck.{segments_per_track};
ghost use Rattle.drive_states.specs.Hand.{Wears};
ghost use Rattle.qic_base.specs.Cartridge.{IsPlace};
ghost use Rattle.host_driver.specs.Calls.{IsReady};
ghost use Rattle.host_driver.specs.Fits.{AgreesWithTape, deck_of, segments_of};
ghost use Rattle.cartridge_spec.specs.Shape.{mask_at, marked_sectors};
ghost use Rattle.cartridge_spec.specs.Volumes.{capacity_between, volume_length};
ghost use Rattle.header_segments.specs.Header.{header_of};
ghost use Rattle.volume_output.specs.Form.{is_lined};
ghost use Rattle.volume_store.specs.Appending.{AppendEnds, FaultsUnread, KeepsFormat, KeepsList, InOrder};
ghost use Rattle.volume_store.specs.Mounting.{MountDoes, StoreFits, KeepsStore};
ghost use Rattle.volume_store.specs.Restoring.{FindsVolume, RestoreEnds, ReadsPart};
ghost use Rattle.volume_store.specs.Scrubbing.{MendEnds};
ghost use Rattle.volume_table.specs.Entry.{entry_of};
ghost use Rattle.cartridge_front.specs.Finding.{NamesCause, RefusesMounting};

use crate::appended::Appended;
use crate::appending::{is_label, take_input};
use bad_sector_map::BadMap;
use cartridge_front::{add_entry, learn, settle, settle_again};
use command_spec::Depth;
use drive_states::{HandFault, Unit};
use header_segments::Header;
use host_driver::Host;
use qic_base::{Name, Sector, Sink, Source, StoreFault, Tape, TapeFailed};
use segment_io::Workspace;
use segment_mending::{ScrubReport, scrub_segments};
use std::marker::Model;
use volume_output::{Extent, Form, give_volume, read_part};
use volume_table::{Entry, Table};

/// A mounted cartridge's volumes: its header in force, its map of bad sectors and the list of its volumes. It doesn't
/// hold the unit: each call is handed the unit that it drives.
#[derive(Drop)]
pub struct Store {
    host: Host,
    work: Workspace,
    map: BadMap,
    table: Table,
    header: Header,
    // how many of the workspace's sectors are the data of the piece that the last call read, where that was one
    shown: u32,
}

impl Model for Store {
    ghost use Rattle.std.specs.Prelude.{◌≡◌, ◌-◌, ◌*◌, length, take};
    ghost use Rattle.header_segments.specs.Header.{header_of};
    ghost use Rattle.cartridge_laws.specs.Table.{IsSoundList};
    ghost use Rattle.volume_store.specs.Mounting.{StoreView};

    ghost Value = { StoreView };

    ghost view = { λ store. record {
      host = store.host;
      header = header_of store.header;
      words = store.map;
      entries = store.table;
      part = take store.shown store.work;
    } };

    ghost invariant = { λ store. (length store.map ≡ 28 * store.header.segments_per_track)
        × IsSoundList (length store.map - 1) store.table };
}

/// The bytes of data that the segments from one to another carry.
pub(crate) fn capacity_between(map: &BadMap, start: u16, end: u16) -> u64
    requires { end < length map.now }
    ensures { result ≡ capacity_between map.now start end }
{
    let mut bytes = 0;
    for segment in u32::from(start)..u32::from(end) + 1 {
        bytes += u64::from(map.capacity(segment));
    }
    bytes
}

impl Store {
    /// Mounts the cartridge of a drive: learns its header in force, its map and its volumes, and settles the volume
    /// table where the cartridge isn't protected. The refusals come in this order: not formatted, a foreign value in
    /// the header, a volume table that is lost or matches no code block, a foreign slot of the table.
    pub fn mount<T: Tape>(
        unit: &mut Unit<T>,
        mut host: Host,
        mut work: Workspace,
        mut map: BadMap,
        mut table: Table,
    ) -> Result<Store, StoreFault>
        requires ready { IsReady T.means host unit.old }
        requires agrees { AgreesWithTape T.means unit.old }
        ensures did { MountDoes T.means unit.old.tape unit.new.tape result }
        ensures kind { RefusesMounting result }
        ensures cause { NamesCause (segments_of host) result }
        ensures fits { IfOk result (λ store. StoreFits T.means store unit.new) }
        ensures size { T.means.size unit.new.tape ≡ T.means.size unit.old.tape }
    {
        let learnt = learn(&mut host, unit, &mut work, &mut map, &mut table)?;
        settle(&mut host, unit, learnt.unread, &mut work)?;
        Ok(Store {
            host,
            work,
            map,
            table,
            header: learnt.header,
            shown: 0,
        })
    }

    /// Appends a volume of this name and date word behind the others: with nothing promised the whole source, and with
    /// a promise just as many of its bytes. In this order: `Protected`; the volume table is read again, which is
    /// refused as by `mount`, and settled; `Full` where fewer bytes have room than are promised, or none, before a byte
    /// is read; the volume's segments are written as the bytes come; `Full` where there are more, and just one more is
    /// taken; `Short` where there are fewer than were promised; then the table is written. A refusal leaves the volumes
    /// as they were.
    pub fn append<T: Tape, S: Source>(
        &mut self,
        unit: &mut Unit<T>,
        name: &Name,
        date: u32,
        promised: Option<u32>,
        source: &mut S,
    ) -> Result<Appended, StoreFault>
        requires fits { StoreFits T.means self.old unit.old }
        ensures ends { AppendEnds T.means S.means
            (reading unit.old.tape source.old) (reading unit.new.tape source.new)
            self.old self.new name.now date promised result }
        ensures unread { FaultsUnread T.means S.means
            (reading unit.old.tape source.old) (reading unit.new.tape source.new) result }
        ensures order { InOrder T.means S.means
            (reading unit.old.tape source.old) (reading unit.new.tape source.new) self.old promised result }
        ensures protected { (result ≡ Err StoreFault.Protected) ↔
            (is_protected unit.old.drive.deck ≡ true) }
        ensures list { KeepsList result self.old self.new }
        ensures format { KeepsFormat self.old self.new }
        ensures fits { result ≢ Err StoreFault.Tape → StoreFits T.means self.new unit.new }
        ensures kept { S.means.keeps source.old source.new }
        ensures size { T.means.size unit.new.tape ≡ T.means.size unit.old.tape }
    {
        if self.host.protected() {
            return Err(StoreFault::Protected);
        }
        settle_again(&mut self.host, unit, &mut self.work, &self.table)?;
        let written = take_input(
            &mut self.host,
            unit,
            &self.map,
            &self.table,
            promised,
            &mut self.work,
            source,
        )?;
        is_label(name);
        let entry = Entry {
            start: written.start,
            end: written.end,
            name: *name,
            date,
            flags: 1,
            sequence: 1,
            directory: 0,
            size: u64::from(written.bytes),
        };
        add_entry(
            &mut self.host,
            unit,
            &entry,
            &mut self.work,
            &mut self.table,
        )?;
        Ok(Appended {
            number: self.count(),
            bytes: entry.size,
            start: entry.start,
            end: entry.end,
        })
    }

    /// The bytes of a volume, which is counted from 1, and the segments in which they lie; `NoVolume` where there is none.
    fn volume(&self, number: u32) -> Result<Extent, StoreFault>
        ensures found { FindsVolume self.now number result }
        ensures on_tape { IfOk result (λ volume. volume.end < length self.now.words) }
        ensures within { IfOk result (λ volume.
            volume.bytes ≤ capacity_between self.now.words volume.start volume.end) }
    {
        let count = self.count();
        if number == 0 || number > count {
            return Err(StoreFault::NoVolume { number, count });
        }
        let entry = self.table.entry((number - 1) as u8);
        Ok(Extent {
            start: entry.start,
            end: entry.end,
            bytes: self.length(number - 1),
        })
    }

    /// Gives the bytes of a volume, counted from 1, segment by segment in this form, each once the whole segment
    /// agrees. The answer is the volume's length. `NoVolume` where there is none of this number; `Lost` or `Mismatch`
    /// at the first segment that holds some of its length and doesn't read, and what was given is then the data of the
    /// segments before it. The tape is only read.
    pub fn restore<T: Tape, K: Sink>(
        &mut self,
        unit: &mut Unit<T>,
        number: u32,
        form: Form,
        sink: &mut K,
    ) -> Result<u64, StoreFault>
        requires fits { StoreFits T.means self.old unit.old }
        ensures ends { RestoreEnds T.means K.means self.old number (is_lined form)
            (around unit.old.tape sink.old) (around unit.new.tape sink.new) result }
        ensures store { KeepsStore self.old self.new }
        ensures fits { result ≢ Err StoreFault.Tape → StoreFits T.means self.new unit.new }
        ensures size { T.means.size unit.new.tape ≡ T.means.size unit.old.tape }
    {
        let volume = self.volume(number)?;
        give_volume(
            &mut self.host,
            unit,
            &self.map,
            volume,
            form,
            &mut self.work,
            sink,
        )?;
        Ok(volume.bytes)
    }

    /// Reads one piece of a volume, which is counted from 1: the part with this number, from 0, of its segments that hold
    /// some of its bytes. The answer is how many of them lie in it, 1 or more, and `part_data` then gives the segment's
    /// data; `None` where there is no such part, and nothing is read. The refusals are those of `restore`, for this
    /// segment. The tape is only read.
    pub fn part<T: Tape>(
        &mut self,
        unit: &mut Unit<T>,
        number: u32,
        part: u32,
    ) -> Result<Option<u32>, StoreFault>
        requires fits { StoreFits T.means self.old unit.old }
        ensures ends { ReadsPart T.means self.old self.new number part
            unit.old.tape unit.new.tape result }
        ensures few { IfOk result (λ found. IfSome found (λ bytes. part < 2 ^ 16)) }
        ensures store { KeepsStore self.old self.new }
        ensures fits { StoreFits T.means self.new unit.new }
        ensures size { T.means.size unit.new.tape ≡ T.means.size unit.old.tape }
    {
        let volume = self.volume(number)?;
        let found = read_part(
            &mut self.host,
            unit,
            &self.map,
            volume,
            part,
            &mut self.work,
        )?;
        let Some(read) = found else {
            return Ok(None);
        };
        self.shown = read.sectors;
        Ok(Some(read.bytes))
    }

    /// The data sectors of the segment that `part` read, where that was the last call and found one.
    pub fn part_data(&self) -> &[Sector]
        ensures { result.now ≡ self.now.part }
    {
        let sectors = self.work.sectors();
        &sectors[..(self.shown as usize).min(sectors.len())]
    }

    /// Scrubs the cartridge in a form, with the refusals of `scrub`.
    fn mend<T: Tape, K: Sink>(
        &mut self,
        unit: &mut Unit<T>,
        depth: Depth,
        sink: &mut K,
    ) -> Result<ScrubReport, StoreFault>
        requires fits { StoreFits T.means self.old unit.old }
        ensures ends { MendEnds T.means K.means depth self.old
            (around unit.old.tape sink.old) (around unit.new.tape sink.new) result }
        ensures protected { (result ≡ Err StoreFault.Protected) ↔
            (is_protected unit.old.drive.deck ≡ true) }
        ensures store { KeepsStore self.old self.new }
        ensures fits { result ≢ Err StoreFault.Tape → StoreFits T.means self.new unit.new }
        ensures size { T.means.size unit.new.tape ≡ T.means.size unit.old.tape }
    {
        if self.host.protected() {
            return Err(StoreFault::Protected);
        }
        scrub_segments(
            &mut self.host,
            unit,
            depth,
            &self.map,
            &self.table,
            &mut self.work,
            sink,
        )
    }

    /// Looks at both header copies, the volume table and the segments of all volumes, and writes the sectors again that
    /// can't be read, where they can be found; prints a line for each segment that doesn't read, and last the counts.
    /// `Protected` before anything.
    pub fn scrub<T: Tape, K: Sink>(
        &mut self,
        unit: &mut Unit<T>,
        sink: &mut K,
    ) -> Result<ScrubReport, StoreFault>
        requires fits { StoreFits T.means self.old unit.old }
        ensures ends { MendEnds T.means K.means Depth.Shallow self.old
            (around unit.old.tape sink.old) (around unit.new.tape sink.new) result }
        ensures protected { (result ≡ Err StoreFault.Protected) ↔
            (is_protected unit.old.drive.deck ≡ true) }
        ensures store { KeepsStore self.old self.new }
        ensures fits { result ≢ Err StoreFault.Tape → StoreFits T.means self.new unit.new }
        ensures size { T.means.size unit.new.tape ≡ T.means.size unit.old.tape }
    {
        self.mend(unit, Depth::Shallow, sink)
    }

    /// Scrubs as `scrub` does, and also finds, in each segment but the volume table's, one sector that can be read and
    /// holds wrong bytes, where at most one other can't be read: it is written as well, and a line names it.
    pub fn scrub_deep<T: Tape, K: Sink>(
        &mut self,
        unit: &mut Unit<T>,
        sink: &mut K,
    ) -> Result<ScrubReport, StoreFault>
        requires fits { StoreFits T.means self.old unit.old }
        ensures ends { MendEnds T.means K.means Depth.Deep self.old
            (around unit.old.tape sink.old) (around unit.new.tape sink.new) result }
        ensures protected { (result ≡ Err StoreFault.Protected) ↔
            (is_protected unit.old.drive.deck ≡ true) }
        ensures store { KeepsStore self.old self.new }
        ensures fits { result ≢ Err StoreFault.Tape → StoreFits T.means self.new unit.new }
        ensures size { T.means.size unit.new.tape ≡ T.means.size unit.old.tape }
    {
        self.mend(unit, Depth::Deep, sink)
    }

    /// Makes a readable sector unreadable until it is written again, by a person's hand; the segment counts from 0, the
    /// sector is its index, 0 to 31. `BadPlace` exactly where the cartridge has no such sector.
    pub fn wear<T: Tape>(
        &mut self,
        unit: &mut Unit<T>,
        segment: u32,
        sector: u32,
    ) -> Result<Result<(), HandFault>, TapeFailed>
        requires fits { StoreFits T.means self.old unit.old }
        ensures misplaced { ¬ (IsPlace (segments_per_track unit.old.drive.deck) segment sector) →
            (result ≡ Ok (Err HandFault.BadPlace)) × (unit.new ≡ unit.old) }
        ensures placed { IsPlace (segments_per_track unit.old.drive.deck) segment sector →
            Wears T.means unit.old unit.new segment sector result }
        ensures drive { unit.new.drive ≡ unit.old.drive }
        ensures store { self.new ≡ self.old }
        ensures fits { OnOk result (StoreFits T.means self.new unit.new) }
        ensures size { T.means.size unit.new.tape ≡ T.means.size unit.old.tape }
    {
        self.host.wear(unit, segment, sector)
    }

    /// Whether the cartridge is write protected.
    pub fn protected(&self) -> bool
        ensures { result ≡ is_protected (deck_of self.now.host) }
    {
        self.host.protected()
    }

    /// The number of volumes, 0 to 232.
    pub fn count(&self) -> u32
        ensures count { result ≡ length self.now.entries }
        ensures few { result ≤ 232 }
    {
        u32::from(self.table.len())
    }

    /// The entry of a volume, counted from 0.
    pub fn entry(&self, index: u32) -> &Entry
        requires { index < length self.now.entries }
        ensures { slice_get self.now.entries index ≡ Some (entry_of result.now) }
    {
        prove!(index < self.count());
        self.table.entry(index as u8)
    }

    /// The length of a volume in bytes, counted from 0: its data size where that fits its segments and there is no
    /// directory, and else all that they carry by the map.
    pub fn length(&self, index: u32) -> u64
        requires { index < length self.now.entries }
        ensures { IfSome (slice_get self.now.entries index) (λ entry.
            result ≡ volume_length self.now.words entry) }
    {
        let entry = self.entry(index);
        let capacity = capacity_between(&self.map, entry.start, entry.end);
        if entry.directory == 0 && entry.size <= capacity {
            entry.size
        } else {
            capacity
        }
    }

    /// The header in force.
    pub fn header(&self) -> &Header
        ensures { header_of result.now ≡ self.now.header }
    {
        &self.header
    }

    /// The number of bad sectors that the map marks.
    pub fn bad(&self) -> u32
        ensures { result ≡ marked_sectors self.now.words }
    {
        self.map.marked()
    }

    /// The mask of a segment's usable sectors.
    pub fn usable(&self, segment: u32) -> u32
        requires { segment < 28 * self.now.header.segments_per_track }
        ensures { result ≡ mask_at self.now.words segment }
    {
        self.map.usable(segment)
    }
}
