//! The sectors of a cartridge in memory.

ghost use Rattle.std.specs.Prelude.{◌≡◌, ◌≢◌, ℕ, ◌<◌, ◌≤◌, ◌+◌, ◌++◌, ◌&&◌, false, length, drop, map, replicate, All, IfOk};
ghost use Rattle.qic_base.specs.CartridgeTerms.{IsView, is_lost};
ghost use Rattle.qic_base.specs.Cartridge.{zero_sector};
ghost use Rattle.qic_base.specs.Step.{written_view, formatted_view, worn_view, spoiled_view};
ghost use Rattle.qic_base.specs.TapeCalls.{ReadsSectors, KeepsOthers, AreBlank, bytes_read, is_readable, is_blank};
ghost use Rattle.qic_base.specs.Tape.{spoil_answer};
ghost use Rattle.qic_mem.specs.Sectors.{view_in, changed_at, changed_from, views_prop};

use qic_base::{LostSet, NoMemory, Sector, SectorView, SectorsRead};
use std::alloc::Global;

/// The views of sectors, one after another.
#[derive(Drop)]
pub(crate) struct Sectors {
    views: Vec<SectorView>,
    ghost whole: { All IsView views.items } by { views_prop views.items },
}

impl Sectors {
    /// This many sectors that were never formatted.
    pub(crate) fn new(alloc: Global, count: usize) -> Result<Self, NoMemory>
        ensures { IfOk result (λ s. s.views.items ≡ replicate count SectorView.Blank) }
    {
        Ok(Sectors {
            views: vec![in alloc; SectorView::Blank; count]?,
        })
    }

    /// Reads the wanted ones of the 32 sectors from the first on, each into its entry.
    pub(crate) fn read_several(
        &self,
        first: usize,
        wanted: u32,
        into: &mut [Sector; 32],
    ) -> SectorsRead
        requires { first + 32 ≤ length self.now.views.items }
        ensures reads { ReadsSectors wanted result.good result.blank
            (λ i. view_in self.now.views.items (first + i)) into.old into.new }
        ensures kept { KeepsOthers result.good into.old into.new }
    {
        read_from(&self.views, first, wanted, into)
    }

    /// Which of the 32 sectors from the first on are to be written and were never formatted.
    pub(crate) fn blank_ones(&self, first: usize, written: u32) -> LostSet
        requires { first + 32 ≤ length self.now.views.items }
        ensures { AreBlank written result (λ i. view_in self.now.views.items (first + i)) }
    {
        blank_from(&self.views, first, written)
    }

    /// Whether the sector at a place is a defect once it is spoiled.
    pub(crate) fn spoil_answer(&self, place: usize) -> bool
        requires { place < length self.now.views.items }
        ensures { result ≡ spoil_answer (view_in self.now.views.items place) }
    {
        match self.views[place] {
            SectorView::Blank | SectorView::Defect => true,
            SectorView::Lost | SectorView::Holds(_) => false,
        }
    }

    /// Writes the sector at a place, where it was formatted and is no defect.
    pub(crate) fn write(&mut self, place: usize, from: &Sector)
        requires { place < length self.old.views.items }
        ensures { self.new.views.items ≡ changed_at self.old.views.items place (written_view from.now) }
    {
        write_view(&mut self.views[place], from);
    }

    /// Makes the sector at a place unreadable, where it holds bytes.
    pub(crate) fn wear(&mut self, place: usize)
        requires { place < length self.old.views.items }
        ensures { self.new.views.items ≡ changed_at self.old.views.items place worn_view }
    {
        wear_view(&mut self.views[place]);
    }

    /// Makes a defect of the sector at a place, where it was never formatted.
    pub(crate) fn spoil(&mut self, place: usize)
        requires { place < length self.old.views.items }
        ensures { self.new.views.items ≡ changed_at self.old.views.items place spoiled_view }
    {
        spoil_view(&mut self.views[place]);
    }

    /// Formats the 32 sectors from the first on.
    pub(crate) fn format_segment(&mut self, first: usize)
        requires { first + 32 ≤ length self.old.views.items }
        ensures formatted { self.new.views.items ≡ changed_from self.old.views.items first formatted_view }
        ensures len { length self.new.views.items ≡ length self.old.views.items }
    {
        format_from(&mut self.views, first);
    }

    /// Makes each readable one of the 32 sectors from the first on unreadable.
    pub(crate) fn wear_segment(&mut self, first: usize)
        requires { first + 32 ≤ length self.old.views.items }
        ensures worn { self.new.views.items ≡ changed_from self.old.views.items first worn_view }
        ensures len { length self.new.views.items ≡ length self.old.views.items }
    {
        wear_from(&mut self.views, first);
    }

    /// Makes the first `count` sectors new ones.
    pub(crate) fn clear(&mut self, count: usize)
        requires { count ≤ length self.old.views.items }
        ensures { self.new.views.items
            ≡ replicate count SectorView.Blank ++ drop count self.old.views.items }
    {
        clear_views(&mut self.views[0..count]);
    }
}

/// Whether a sector is in the set with this mask.
pub(crate) fn is_in(set: u32, sector: usize) -> bool
    requires { sector < 32 }
    ensures { result ≡ is_lost set sector }
{
    set >> sector & 1 == 1
}

/// The mask with a sector more, where that is to be.
fn with_sector(set: u32, sector: usize, is_more: bool) -> u32
    requires place { sector < 32 }
    requires new { is_lost set sector ≡ false }
    ensures same { is_lost result sector ≡ is_more }
    ensures others { (i : ℕ) → i ≢ sector → is_lost result i ≡ is_lost set i }
{
    if is_more { set | 1 << sector } else { set }
}

/// Reads a sector by its view, where it is wanted. Answers whether it is good.
fn read_wanted(view: &SectorView, is_wanted: bool, into: &mut Sector) -> bool
    ensures good { result ≡ (is_wanted && is_readable view.now) }
    ensures bytes { into.new ≡ bytes_read is_wanted view.now into.old }
{
    match view {
        SectorView::Holds(bytes) if is_wanted => {
            *into = *bytes;
            true
        }
        _ => false,
    }
}

/// Whether a sector is asked for and was never formatted.
fn is_asked_blank(view: &SectorView, is_asked: bool) -> bool
    ensures { result ≡ (is_asked && is_blank view.now) }
{
    match view {
        SectorView::Blank => is_asked,
        SectorView::Defect | SectorView::Lost | SectorView::Holds(_) => false,
    }
}

/// Reads the wanted ones of the 32 sectors from a place on.
fn read_from(
    views: &[SectorView],
    first: usize,
    wanted: u32,
    into: &mut [Sector; 32],
) -> SectorsRead
    requires { first + 32 ≤ length views.now }
    ensures reads { ReadsSectors wanted result.good result.blank (λ i. view_in views.now (first + i)) into.old into.new }
    ensures kept { KeepsOthers result.good into.old into.new }
{
    let mut good: u32 = 0;
    let mut blank: u32 = 0;
    for i in 0..32 {
        let view = &views[first + i];
        let is_wanted = is_in(wanted, i);
        good = with_sector(good, i, read_wanted(view, is_wanted, &mut into[i]));
        blank = with_sector(blank, i, is_asked_blank(view, is_wanted));
    }
    SectorsRead {
        good: LostSet::from_mask(good),
        blank: LostSet::from_mask(blank),
    }
}

/// Which of the 32 sectors from a place on are to be written and were never formatted.
fn blank_from(views: &[SectorView], first: usize, written: u32) -> LostSet
    requires { first + 32 ≤ length views.now }
    ensures { AreBlank written result (λ i. view_in views.now (first + i)) }
{
    let mut blank: u32 = 0;
    for i in 0..32 {
        let is_more = is_asked_blank(&views[first + i], is_in(written, i));
        blank = with_sector(blank, i, is_more);
    }
    LostSet::from_mask(blank)
}

/// Writes a sector, where it was formatted and is no defect.
fn write_view(view: &mut SectorView, from: &Sector)
    ensures written { view.new ≡ written_view from.now view.old }
    ensures whole { IsView view.old → IsView view.new }
{
    match view {
        SectorView::Blank | SectorView::Defect => {}
        SectorView::Lost | SectorView::Holds(_) => *view = holding(from),
    }
}

/// The view of a sector that holds these bytes.
fn holding(bytes: &[u8]) -> SectorView
    requires { length bytes.now ≡ 1024 }
    ensures bytes { result ≡ SectorView.Holds bytes.now }
    ensures whole { IsView result }
{
    let mut kept = [0; 1024];
    kept.copy_from_slice(bytes);
    SectorView::Holds(kept)
}

/// Makes a sector unreadable, where it holds bytes.
fn wear_view(view: &mut SectorView)
    ensures worn { view.new ≡ worn_view view.old }
    ensures whole { IsView view.old → IsView view.new }
{
    if let SectorView::Holds(_) = view {
        *view = SectorView::Lost;
    }
}

/// Makes a defect of a sector, where it was never formatted.
fn spoil_view(view: &mut SectorView)
    ensures spoiled { view.new ≡ spoiled_view view.old }
    ensures whole { IsView view.old → IsView view.new }
{
    if let SectorView::Blank = view {
        *view = SectorView::Defect;
    }
}

/// Formats the 32 sectors from a place on.
fn format_from(views: &mut [SectorView], first: usize)
    requires { first + 32 ≤ length views.old }
    ensures formatted { views.new ≡ changed_from views.old first formatted_view }
    ensures len { length views.new ≡ length views.old }
    ensures whole { All IsView views.old → All IsView views.new }
{
    format_views(&mut views[first..first + 32]);
}

/// Formats sectors.
fn format_views(views: &mut [SectorView])
    ensures formatted { views.new ≡ map formatted_view views.old }
    ensures whole { All IsView views.old → All IsView views.new }
{
    for view in views.iter_mut() {
        format_view(view);
    }
}

/// Formats a sector: one that is no defect is zero.
fn format_view(view: &mut SectorView)
    ensures formatted { view.new ≡ formatted_view view.old }
    ensures whole { IsView view.old → IsView view.new }
{
    match view {
        SectorView::Defect => {}
        SectorView::Blank | SectorView::Lost | SectorView::Holds(_) => *view = zero_view(),
    }
}

/// The view of a sector of zeros.
#[tactic(auto, unfolding(qic_base::specs::Cartridge::zero_sector))]
fn zero_view() -> SectorView
    ensures zero { result ≡ SectorView.Holds zero_sector }
    ensures whole { IsView result }
{
    holding(&[0; 1024])
}

/// Makes each readable one of the 32 sectors from a place on unreadable.
fn wear_from(views: &mut [SectorView], first: usize)
    requires { first + 32 ≤ length views.old }
    ensures worn { views.new ≡ changed_from views.old first worn_view }
    ensures len { length views.new ≡ length views.old }
    ensures whole { All IsView views.old → All IsView views.new }
{
    wear_views(&mut views[first..first + 32]);
}

/// Makes sectors unreadable, where they hold bytes.
fn wear_views(views: &mut [SectorView])
    ensures worn { views.new ≡ map worn_view views.old }
    ensures whole { All IsView views.old → All IsView views.new }
{
    for view in views.iter_mut() {
        wear_view(view);
    }
}

/// Makes new sectors of these.
fn clear_views(views: &mut [SectorView])
    ensures { views.new ≡ replicate (length views.old) SectorView.Blank }
{
    views.fill(SectorView::Blank);
}
