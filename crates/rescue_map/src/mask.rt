//! Masks of sectors.

ghost use Rattle.std.specs.Prelude.{◌≡◌, ◌⊎◌, ◌↔◌, ◌≤◌, ◌<◌, ◌+◌, ◌-◌, ◌*◌, ◌++◌, ◌∷◌, [], List, ℕ, length, min};
ghost use Rattle.std.specs.Int.{bit_at};
ghost use Rattle.rescue_map.specs.Mask.{IsMarked};
ghost use Rattle.rescue_map.specs.Marking.{IsBlock, Marks};
ghost use Rattle.rescue_map.specs.declared.form.Block.{Block};

use crate::form::Block;

/// No sector is in the mask.
pub fn clear(mask: &mut [u32])
    ensures { (sector : ℕ) → IsMarked mask.new sector → ⊥ }
{
    for word in mask.iter_mut() {
        *word = 0;
    }
}

/// A word with the bits from one up to another, too, of its 32.
fn mark_word(word: u32, from: u32, to: u32) -> u32
    requires { to ≤ 32 }
    ensures { (bit : ℕ) → bit < 32 →
        (bit_at result bit ≡ 1) ↔ ((bit_at word bit ≡ 1) ⊎ ((from ≤ bit) × (bit < to))) }
{
    if word == u32::MAX {
        return word;
    }
    let mut marked = word;
    for bit in from..to {
        marked |= 1 << bit;
    }
    marked
}

/// How many of the 32 bits from a place on are in front of another.
fn bits_before(end: u64, start: u64) -> u32
    ensures bits { result ≡ min (end - start) 32 }
{
    end.saturating_sub(start).min(32) as u32
}

/// The sectors from `first` up to `end` are in the mask, too, as far as it goes: bit `i` of word `w` is that of sector
/// 32 `w` + `i`. It takes time for each word, and for each bit of one that is not full.
pub fn mark(mask: &mut [u32], first: u64, end: u64)
    ensures { (sector : ℕ) → sector < 32 * length mask.old →
        (IsMarked mask.new sector ↔ (IsMarked mask.old sector ⊎ ((first ≤ sector) × (sector < end)))) }
{
    for index in first / 32..end.div_ceil(32) {
        if index >= mask.len() as u64 {
            return;
        }
        let start = 32 * index;
        let word = index as usize;
        mask[word] = mark_word(
            mask[word],
            bits_before(first, start),
            bits_before(end, start),
        );
    }
}

/// A block more: of the bytes before it those from `from` on were rescued without a gap. Answers the same of the bytes
/// before the block's end.
pub fn mark_block(mask: &mut [u32], from: u64, block: Block) -> u64
    requires { IsBlock block }
    ensures { (blocks : List Block) → Marks mask.old blocks from block.start →
        Marks mask.new (blocks ++ block ∷ []) result (block.start + block.size) }
{
    let end = block.start + block.size;
    if block.mark != b'+' {
        return end;
    }
    let first = from.div_ceil(1024).max(block.start / 1024);
    mark(mask, first, end / 1024);
    from
}
