//! A tape over any disk: its calls, as reads and writes of the image.

ghost use Rattle.std.specs.Prelude.{◌≡◌, ◌<◌, ◌≤◌, ℕ, List, [], ◌∷◌, true, Some, None, length, slice_index, IsSome, IfOk, IfSome, OnOk, OnErr};
ghost use Rattle.std.specs.Option.{option_map};
ghost use Rattle.qic_base.specs.Cartridge.{IsLength, view_at, info_of};
ghost use Rattle.qic_base.specs.CartridgeTerms.{IsVersion, place_of};
ghost use Rattle.qic_base.specs.Disk.{IsSettled};
ghost use Rattle.qic_base.specs.Step.{WriteSectors, FormatSegment, SetReferenced, SetProtected, Renew, Wear, Spoil, Upgrade};
ghost use Rattle.qic_base.specs.TapeCalls.{Does, Tells, IsPlaceOf};
ghost use Rattle.qic_base.specs.TapeCalls.{ReadsSectors, KeepsOthers, chosen, AreBlank};
ghost use Rattle.qic_base.specs.Tape.{spoil_answer};
ghost use Rattle.qic_base.specs.declared.TheConstants.{LONGEST};
ghost use Rattle.cart_image.specs.Image.{cartridge_of, layout_of, view_in, segment_views, info_by as info_told};
ghost use Rattle.cart_image.specs.Layout.{end_of, touches};
ghost use Rattle.cart_image.specs.State.{AreStates, AreStatesOf, state_of, with_state};
ghost use Rattle.cart_image.specs.declared.layout.Layout.{Layout};
ghost use Rattle.cart_image.specs.declared.segment.SegmentStates.{SegmentStates};

use crate::layout::{Head, Kind, Layout, PROTECTED_PLACE, REFERENCED_PLACE};
use crate::reading::SectorState;
use crate::segment::SegmentStates;
use crate::{formatting, reading, renewing, several, upgrading, wanted, writing};
use qic_base::{Disk, DiskFailed, LostSet, Sector, SectorsRead, Tape, TapeFailed, TapeInfo};

/// A tape in an image file on a disk.
#[derive(Drop)]
pub struct ImageTape<D: Disk> {
    /// Nothing is pending in it, so a crash between two calls leaves the bytes that a read gives.
    disk: D,
    /// The layout that the last `info` found or that a `renew` or `upgrade` made: None at first, where that `info`
    /// found no image, and after a `renew` or `upgrade` that failed; an `info` that failed changes nothing. Where it
    /// is some, its length is 3 to `LONGEST`, the disk was seen to be long enough for it, and bytes that the disk
    /// tells are an image with just this layout.
    layout: Option<Layout>,
    /// What the planes say of the segment that was looked at last; None where that is not known, and in version 2.
    known: Option<SegmentStates>,
    /// The disk's count of faults when the tape was opened, and one more for each of the tape's calls that failed; or the
    /// greatest u64 where there were more.
    faults: u64,
    ghost settled: { (bytes left : List ℕ) →
        D.means.told disk ≡ Some bytes → D.means.may_leave disk left → left ≡ bytes },
    ghost shortest: { (l : Layout) → layout ≡ Some l → 3 ≤ l.segments_per_track },
    ghost longest: { (l : Layout) → layout ≡ Some l → l.segments_per_track ≤ LONGEST },
    ghost covers: { (l : Layout) → layout ≡ Some l → end_of l ≤ D.means.seen_len disk },
    ghost laid: { (l : Layout) (bytes : List ℕ) → layout ≡ Some l →
        D.means.told disk ≡ Some bytes → layout_of bytes ≡ Some l },
    ghost right: { (states : SegmentStates) (bytes : List ℕ) → known ≡ Some states →
        D.means.told disk ≡ Some bytes → AreStates states (cartridge_of bytes) },
}

impl<D: Disk> ImageTape<D> {
    ghost use Rattle.cart_image.specs.ImageTape.{disk_of, layout_at, known_of, faults_of, image_means};
    ghost use Rattle.cart_image.specs.Run.{Looked};

    /// A tape in this file, of which nothing is known yet. It makes no call of the disk, and starts with the disk's count of
    /// faults.
    pub fn open(disk: D, faults: u64) -> ImageTape<D>
        requires settled { D.means.tells_stops disk ≡ true → IsSettled D.means disk }
        requires faults { D.means.faults disk ≡ faults }
        ensures disk { disk_of result ≡ disk }
        ensures size { image_means.size result ≡ None }
        ensures faults { image_means.faults result ≡ D.means.faults disk }
    {
        ImageTape {
            disk,
            layout: None,
            known: None,
            faults,
        }
    }

    /// The least length of a file that holds the image that the tape found or made, in bytes; None where none is known.
    pub fn image_len(&self) -> Option<u64>
        ensures { result ≡ option_map end_of (layout_at self.now) }
    {
        match self.layout {
            Some(layout) => Some(layout.end()),
            None => None,
        }
    }

    /// The file, in which nothing is pending.
    pub fn into_disk(self) -> D
        ensures disk { result ≡ disk_of self }
        ensures settled { IsSettled D.means result }
    {
        let ImageTape {
            disk,
            layout: _,
            known: _,
            faults: _,
        } = self;
        disk
    }

    /// The layout, where it is known.
    fn layout(&self) -> Layout
        requires { IsSome (image_means.size self.now) }
        ensures { layout_at self.now ≡ Some result }
    {
        match self.layout {
            Some(layout) => layout,
            None => unreachable!("an image has a layout"),
        }
    }

    /// What the planes say of the sectors of a segment. They are read where that is not known.
    fn look_at_segment(&mut self, layout: Layout, segment: u32) -> Result<SegmentStates, DiskFailed>
        requires place { IsPlaceOf image_means self.old segment 0 }
        requires layout { layout_at self.old ≡ Some layout }
        ensures segment { IfOk result (λ states. states.segment ≡ segment) }
        ensures states { IfOk result (λ states. (bytes : List ℕ) →
            D.means.told (disk_of self.new) ≡ Some bytes →
            AreStates states (cartridge_of bytes)) }
        ensures looked { Looked D.means (disk_of self.old) (disk_of self.new) result }
        ensures known { IfOk result (λ states. known_of self.new ≡ Some states) }
        ensures layout { layout_at self.new ≡ layout_at self.old }
        ensures faults { faults_of self.new ≡ faults_of self.old }
    {
        if let Some(states) = self.known {
            if states.segment == segment {
                return Ok(states);
            }
        }
        self.known = None;
        let marks = reading::read_marks(&mut self.disk, layout, segment)?;
        let states = SegmentStates {
            segment,
            states: reading::states_by(&marks),
        };
        self.known = Some(states);
        Ok(states)
    }

    /// What the state bytes say of a sector. In planes those of its segment are read where they are not known.
    fn look(&mut self, layout: Layout, segment: u32, sector: u8) -> Result<SectorState, DiskFailed>
        requires place { IsPlaceOf image_means self.old segment sector }
        requires layout { layout_at self.old ≡ Some layout }
        ensures state { IfOk result (λ state. (bytes : List ℕ) →
            D.means.told (disk_of self.new) ≡ Some bytes →
            state ≡ state_of (view_in layout bytes (place_of segment sector))) }
        ensures known { IfOk result (λ state. IfSome (known_of self.new) (λ states.
            states.segment ≡ segment)) }
        ensures looked { Looked D.means (disk_of self.old) (disk_of self.new) result }
        ensures layout { layout_at self.new ≡ layout_at self.old }
        ensures faults { faults_of self.new ≡ faults_of self.old }
    {
        if layout.touches() {
            let states = self.look_at_segment(layout, segment)?;
            Ok(states.of(sector))
        } else {
            self.known = None;
            reading::read_state(&mut self.disk, layout, sector_number(segment, sector))
        }
    }

    /// What the state bytes say of the wanted sectors of a segment. In planes those of all are read where they are not
    /// known.
    fn look_at_sectors(
        &mut self,
        layout: Layout,
        segment: u32,
        wanted: LostSet,
    ) -> Result<[SectorState; 32], DiskFailed>
        requires place { IsPlaceOf image_means self.old segment 0 }
        requires layout { layout_at self.old ≡ Some layout }
        ensures states { IfOk result (λ states. IfSome (D.means.told (disk_of self.old))
            (λ bytes. AreStatesOf layout segment wanted bytes states)) }
        ensures looked { Looked D.means (disk_of self.old) (disk_of self.new) result }
        ensures layout { layout_at self.new ≡ layout_at self.old }
        ensures faults { faults_of self.new ≡ faults_of self.old }
    {
        if layout.touches() {
            let states = self.look_at_segment(layout, segment)?;
            Ok(states.states)
        } else {
            self.known = None;
            wanted::read_states(&mut self.disk, layout, segment, wanted)
        }
    }

    /// Reads the wanted sectors of a segment in planes: its state bytes are known or read first.
    fn read_wanted_in_planes(
        &mut self,
        layout: Layout,
        segment: u32,
        wanted: LostSet,
        into: &mut [Sector; 32],
    ) -> Result<SectorsRead, DiskFailed>
        requires place { IsPlaceOf image_means self.old segment 0 }
        requires layout { layout_at self.old ≡ Some layout }
        requires planes { touches layout.kind ≡ true }
        ensures looked { Looked D.means (disk_of self.old) (disk_of self.new) result }
        ensures reads { IfOk result (λ read. IfSome (D.means.told (disk_of self.old)) (λ bytes.
            ReadsSectors wanted read.good read.blank
            (λ i. view_in layout bytes (place_of segment i)) into.old into.new)) }
        ensures kept { IfOk result (λ read. KeepsOthers read.good into.old into.new) }
        ensures unchanged { OnErr result (into.new ≡ into.old) }
        ensures layout { layout_at self.new ≡ layout_at self.old }
        ensures faults { faults_of self.new ≡ faults_of self.old }
    {
        let states = self.look_at_segment(layout, segment)?;
        match wanted::read_in_planes(
            &mut self.disk,
            layout,
            segment,
            &states.states,
            wanted,
            into,
        ) {
            Ok(read) => Ok(read),
            Err(DiskFailed) => {
                self.known = None;
                Err(DiskFailed)
            }
        }
    }

    /// Reads the wanted sectors of a segment: all of it at once, and just these where the disk fails in that.
    fn read_wanted(
        &mut self,
        layout: Layout,
        segment: u32,
        wanted: LostSet,
        into: &mut [Sector; 32],
    ) -> Result<SectorsRead, DiskFailed>
        requires place { IsPlaceOf image_means self.old segment 0 }
        requires layout { layout_at self.old ≡ Some layout }
        ensures looked { Looked D.means (disk_of self.old) (disk_of self.new) result }
        ensures reads { IfOk result (λ read. IfSome (D.means.told (disk_of self.old)) (λ bytes.
            ReadsSectors wanted read.good read.blank
            (λ i. view_in layout bytes (place_of segment i)) into.old into.new)) }
        ensures kept { IfOk result (λ read. KeepsOthers read.good into.old into.new) }
        ensures unchanged { OnErr result (into.new ≡ into.old) }
        ensures layout { layout_at self.new ≡ layout_at self.old }
        ensures faults { faults_of self.new ≡ faults_of self.old }
    {
        if layout.touches() {
            self.read_wanted_in_planes(layout, segment, wanted, into)
        } else {
            self.known = None;
            wanted::read_in_cells(&mut self.disk, layout, segment, wanted, into)
        }
    }
}

impl<D: Disk> Tape for ImageTape<D> {
    ghost use Rattle.cart_image.specs.ImageTape.{disk_of, layout_at, image_means, image-size_fits, image-told_right, image-left_now};
    ghost use Rattle.cart_image.specs.Layout.{write_sectors_steps, format_plan, renew_steps, wear_steps, spoil_steps, mark_steps, protected_place, referenced_place, upgrade_plan};
    ghost use Rattle.cart_image.specs.Run.{Looked, Carried, CarriedBy};

    ghost means = { image_means };

    ghost size_fits = { image-size_fits };

    ghost told_right = { image-told_right D.told_right };

    ghost left_now = { image-left_now D.told_right D.left_now };

    fn info(&mut self) -> Result<Option<TapeInfo>, TapeFailed>
        ensures did { Does image_means self.old self.new [] result }
        ensures info { IfOk result (λ info.
            IfSome (image_means.told self.old) (λ held. info ≡ info_of held)) }
        ensures size { IfOk result (λ info.
            image_means.size self.new ≡ option_map (λ i. i.segments_per_track) info) }
        ensures failed { OnErr result (image_means.size self.new ≡ image_means.size self.old) }

        // It only looks at the disk, and no look failed where it succeeds.
        ensures looked { Looked D.means (disk_of self.old) (disk_of self.new) result }
        ensures stood { OnOk result (D.means.faults (disk_of self.new)
            ≡ D.means.faults (disk_of self.old)) }
        ensures changes { OnOk result (D.means.failed_changes (disk_of self.new)
            ≡ D.means.failed_changes (disk_of self.old)) }
    {
        self.known = None;
        match reading::read_head(&mut self.disk) {
            Ok(head) => {
                self.layout = layout_by(head);
                Ok(info_by(head))
            }
            Err(DiskFailed) => {
                self.faults = self.faults.saturating_add(1);
                Err(TapeFailed)
            }
        }
    }

    fn read_sectors(
        &mut self,
        segment: u32,
        wanted: LostSet,
        into: &mut [Sector; 32],
    ) -> Result<SectorsRead, TapeFailed>
        requires { IsPlaceOf image_means self.old segment 0 }
        ensures did { Does image_means self.old self.new [] result }
        ensures reads { IfOk result (λ read. Tells image_means self.old (λ c.
            ReadsSectors wanted read.good read.blank (view_at c segment) into.old into.new)) }
        ensures kept { IfOk result (λ read. KeepsOthers read.good into.old into.new) }
        ensures unchanged { OnErr result (into.new ≡ into.old) }
        ensures size { image_means.size self.new ≡ image_means.size self.old }

        // It only looks at the disk.
        ensures looked { Looked D.means (disk_of self.old) (disk_of self.new) result }
        ensures changes { OnOk result (D.means.failed_changes (disk_of self.new)
            ≡ D.means.failed_changes (disk_of self.old)) }
    {
        let layout = self.layout();
        match self.read_wanted(layout, segment, wanted, into) {
            Ok(read) => Ok(read),
            Err(DiskFailed) => {
                self.faults = self.faults.saturating_add(1);
                Err(TapeFailed)
            }
        }
    }

    fn write_sectors(
        &mut self,
        segment: u32,
        written: LostSet,
        from: &[Sector; 32],
    ) -> Result<LostSet, TapeFailed>
        requires { IsPlaceOf image_means self.old segment 0 }
        ensures did { Does image_means self.old self.new
            (WriteSectors segment (chosen written from.now) ∷ []) result }
        ensures answer { IfOk result (λ blank. Tells image_means self.old (λ c.
            AreBlank written blank (view_at c segment))) }
        ensures size { image_means.size self.new ≡ image_means.size self.old }

        // The disk's steps, in order.
        ensures steps { CarriedBy D.means (disk_of self.old) (disk_of self.new)
            (layout_at self.old) (λ l bytes. write_sectors_steps l segment written from.now
            (segment_views l segment bytes)) result }
        ensures changes { OnOk result (D.means.failed_changes (disk_of self.new)
            ≡ D.means.failed_changes (disk_of self.old)) }
    {
        let layout = self.layout();
        let states = match self.look_at_sectors(layout, segment, written) {
            Ok(states) => states,
            Err(DiskFailed) => {
                self.faults = self.faults.saturating_add(1);
                return Err(TapeFailed);
            }
        };
        self.known = None;
        match several::write_sectors(&mut self.disk, layout, segment, &states, written, from) {
            Ok(blank) => Ok(blank),
            Err(DiskFailed) => {
                self.faults = self.faults.saturating_add(1);
                Err(TapeFailed)
            }
        }
    }

    fn format_segment(&mut self, segment: u32) -> Result<(), TapeFailed>
        requires { IsPlaceOf image_means self.old segment 0 }
        ensures did { Does image_means self.old self.new (FormatSegment segment ∷ []) result }
        ensures size { image_means.size self.new ≡ image_means.size self.old }

        ensures steps { CarriedBy D.means (disk_of self.old) (disk_of self.new)
            (layout_at self.old) (λ l bytes. format_plan l segment bytes) result }
        ensures changes { OnOk result (D.means.failed_changes (disk_of self.new)
            ≡ D.means.failed_changes (disk_of self.old)) }
    {
        let layout = self.layout();
        self.known = None;
        match formatting::format_segment(&mut self.disk, layout, segment) {
            Ok(()) => Ok(()),
            Err(DiskFailed) => {
                self.faults = self.faults.saturating_add(1);
                Err(TapeFailed)
            }
        }
    }

    fn set_referenced(&mut self) -> Result<(), TapeFailed>
        requires { IsSome (image_means.size self.old) }
        ensures did { Does image_means self.old self.new (SetReferenced ∷ []) result }
        ensures size { image_means.size self.new ≡ image_means.size self.old }

        ensures steps { Carried D.means (disk_of self.old) (disk_of self.new)
            (λ bytes. mark_steps referenced_place true (slice_index bytes referenced_place))
            result }
        ensures changes { OnOk result (D.means.failed_changes (disk_of self.new)
            ≡ D.means.failed_changes (disk_of self.old)) }
    {
        self.known = None;
        match writing::set_mark(&mut self.disk, REFERENCED_PLACE, true) {
            Ok(()) => Ok(()),
            Err(DiskFailed) => {
                self.faults = self.faults.saturating_add(1);
                Err(TapeFailed)
            }
        }
    }

    fn set_protected(&mut self, on: bool) -> Result<(), TapeFailed>
        requires { IsSome (image_means.size self.old) }
        ensures did { Does image_means self.old self.new (SetProtected on ∷ []) result }
        ensures size { image_means.size self.new ≡ image_means.size self.old }

        ensures steps { Carried D.means (disk_of self.old) (disk_of self.new)
            (λ bytes. mark_steps protected_place on (slice_index bytes protected_place)) result }
        ensures changes { OnOk result (D.means.failed_changes (disk_of self.new)
            ≡ D.means.failed_changes (disk_of self.old)) }
    {
        self.known = None;
        match writing::set_mark(&mut self.disk, PROTECTED_PLACE, on) {
            Ok(()) => Ok(()),
            Err(DiskFailed) => {
                self.faults = self.faults.saturating_add(1);
                Err(TapeFailed)
            }
        }
    }

    fn renew(&mut self, segments_per_track: u16) -> Result<(), TapeFailed>
        requires { IsLength segments_per_track }
        ensures did { Does image_means self.old self.new (Renew segments_per_track ∷ []) result }
        ensures size { OnOk result (image_means.size self.new ≡ Some segments_per_track) }
        ensures failed { OnErr result (image_means.size self.new ≡ None) }

        ensures steps { Carried D.means (disk_of self.old) (disk_of self.new)
            (λ bytes. renew_steps segments_per_track (slice_index bytes 0)) result }
        ensures changes { OnOk result (D.means.failed_changes (disk_of self.new)
            ≡ D.means.failed_changes (disk_of self.old)) }
    {
        self.known = None;
        self.layout = None;
        match renewing::renew(&mut self.disk, segments_per_track) {
            Ok(()) => {
                self.layout = Some(Layout {
                    segments_per_track,
                    kind: Kind::Cells,
                });
                Ok(())
            }
            Err(DiskFailed) => {
                self.faults = self.faults.saturating_add(1);
                Err(TapeFailed)
            }
        }
    }

    fn wear(&mut self, segment: u32, sector: u8) -> Result<(), TapeFailed>
        requires { IsPlaceOf image_means self.old segment sector }
        ensures did { Does image_means self.old self.new (Wear segment sector ∷ []) result }
        ensures size { image_means.size self.new ≡ image_means.size self.old }

        ensures steps { CarriedBy D.means (disk_of self.old) (disk_of self.new)
            (layout_at self.old) (λ l bytes. wear_steps l (place_of segment sector)
            (view_in l bytes (place_of segment sector))) result }
        ensures changes { OnOk result (D.means.failed_changes (disk_of self.new)
            ≡ D.means.failed_changes (disk_of self.old)) }
    {
        let layout = self.layout();
        let state = match self.look(layout, segment, sector) {
            Ok(state) => state,
            Err(DiskFailed) => {
                self.faults = self.faults.saturating_add(1);
                return Err(TapeFailed);
            }
        };
        match writing::wear(
            &mut self.disk,
            layout,
            sector_number(segment, sector),
            state,
        ) {
            Ok(()) => {
                self.known = known_with(self.known, sector, state.worn());
                Ok(())
            }
            Err(DiskFailed) => {
                self.known = None;
                self.faults = self.faults.saturating_add(1);
                Err(TapeFailed)
            }
        }
    }

    fn spoil(&mut self, segment: u32, sector: u8) -> Result<bool, TapeFailed>
        requires { IsPlaceOf image_means self.old segment sector }
        ensures did { Does image_means self.old self.new (Spoil segment sector ∷ []) result }
        ensures answer { IfOk result (λ answer. Tells image_means self.old (λ c.
            answer ≡ spoil_answer (view_at c segment sector))) }
        ensures size { image_means.size self.new ≡ image_means.size self.old }

        ensures steps { CarriedBy D.means (disk_of self.old) (disk_of self.new)
            (layout_at self.old) (λ l bytes. spoil_steps l (place_of segment sector)
            (view_in l bytes (place_of segment sector))) result }
        ensures changes { OnOk result (D.means.failed_changes (disk_of self.new)
            ≡ D.means.failed_changes (disk_of self.old)) }
    {
        let layout = self.layout();
        let state = match self.look(layout, segment, sector) {
            Ok(state) => state,
            Err(DiskFailed) => {
                self.faults = self.faults.saturating_add(1);
                return Err(TapeFailed);
            }
        };
        match writing::spoil(
            &mut self.disk,
            layout,
            sector_number(segment, sector),
            state,
        ) {
            Ok(spoiled) => {
                self.known = known_with(self.known, sector, state.spoiled());
                Ok(spoiled)
            }
            Err(DiskFailed) => {
                self.known = None;
                self.faults = self.faults.saturating_add(1);
                Err(TapeFailed)
            }
        }
    }

    fn upgrade(&mut self) -> Result<u8, TapeFailed>
        requires { IsSome (image_means.size self.old) }
        ensures did { Does image_means self.old self.new (Upgrade ∷ []) result }
        ensures answer { IfOk result (λ version. Tells image_means self.old (λ c.
            version ≡ c.version)) }
        ensures version { IfOk result (λ version. IsVersion version) }
        ensures size { OnOk result (image_means.size self.new ≡ image_means.size self.old) }
        ensures failed { OnErr result (image_means.size self.new ≡ None) }

        ensures steps { CarriedBy D.means (disk_of self.old) (disk_of self.new)
            (layout_at self.old) (λ l bytes. upgrade_plan l bytes) result }
        ensures changes { OnOk result (D.means.failed_changes (disk_of self.new)
            ≡ D.means.failed_changes (disk_of self.old)) }
    {
        let layout = self.layout();
        if !layout.touches() {
            return Ok(layout.version());
        }
        self.known = None;
        self.layout = None;
        match upgrading::upgrade(&mut self.disk, layout.segments_per_track) {
            Ok(()) => {
                self.layout = Some(Layout {
                    segments_per_track: layout.segments_per_track,
                    kind: Kind::CellsBehind,
                });
                Ok(layout.version())
            }
            Err(DiskFailed) => {
                self.faults = self.faults.saturating_add(1);
                Err(TapeFailed)
            }
        }
    }
}

/// The layout that a head tells.
fn layout_by(head: Option<Head>) -> Option<Layout>
    ensures { result ≡ option_map (λ h. h.layout) head }
{
    head.map(|head| head.layout)
}

/// What a drive can tell of a cartridge with this head.
fn info_by(head: Option<Head>) -> Option<TapeInfo>
    ensures { result ≡ option_map info_told head }
{
    head.map(|head| TapeInfo {
        segments_per_track: head.layout.segments_per_track,
        protected: head.protected,
        referenced: head.referenced,
    })
}

/// What is known of a segment after a call that left a sector in this state.
fn known_with(known: Option<SegmentStates>, sector: u8, state: SectorState) -> Option<SegmentStates>
    requires { sector < 32 }
    ensures known { result ≡ option_map (λ states. with_state states sector state) known }
    ensures whole { IfSome known (λ states. length states.states ≡ 32) }
{
    match known {
        Some(states) => Some(states.with(sector, state)),
        None => None,
    }
}

/// The number of a sector on the cartridge, counted from 0.
fn sector_number(segment: u32, sector: u8) -> u64
    ensures { result ≡ place_of segment sector }
{
    32 * segment as u64 + sector as u64
}
