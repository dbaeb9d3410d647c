//! The text of a map.

ghost use Rattle.std.specs.Prelude.{◌≡◌, ◌-◌, ◌*◌, ◌∷◌, ◌<◌, ◌≤◌, ◌^◌, length};
ghost use Rattle.qic_base.specs.SinkCalls.{Writes};
ghost use Rattle.rescue_map.specs.Laws.{most_words};
ghost use Rattle.rescue_map.specs.Text.{is_marked, run_block, runs_from, runs_of, hex_digit, hex_digits, block_text, blocks_text, map_text};

use crate::form::Block;
use qic_base::{SECTOR, Sink, SinkFailed, write_text};

/// The comments and the status line of every map that is written.
const HEAD: &str = "# Mapfile. Created by tape_export
# current_pos  current_status  current_pass
0x00000000     +               1
#      pos        size  status
";

/// A hexadecimal digit, in capitals.
fn hex_digit(digit: u32) -> u8
    requires { digit < 16 }
    ensures { result ≡ hex_digit digit }
{
    if digit < 10 {
        b'0' + digit as u8
    } else {
        b'A' + (digit - 10) as u8
    }
}

/// Puts the last hexadecimal digits of a number, as many as there is room for.
fn put_hex(digits: &mut [u8], value: u32)
    ensures { digits.new ≡ hex_digits (length digits.old) value }
{
    let mut value = value;
    let mut at = digits.len();
    while at > 0 {
        at -= 1;
        digits[at] = hex_digit(value % 16);
        value /= 16;
    }
}

/// The line of a block that begins below 4 GiB and is shorter than that.
pub fn block_line(block: Block) -> [u8; 26]
    requires start { block.start < 2 ^ 32 }
    requires size { block.size < 2 ^ 32 }
    ensures { result ≡ block_text block }
{
    let mut line = *b"0x00000000  0x00000000  -\n";
    put_hex(&mut line[2..10], block.start as u32);
    put_hex(&mut line[14..22], block.size as u32);
    line[24] = block.mark;
    line
}

fn is_marked(mask: &[u32], sector: u32) -> bool
    requires { sector < 32 * length mask.now }
    ensures { result ≡ is_marked mask.now sector }
{
    mask[(sector / 32) as usize] >> (sector % 32) & 1 == 1
}

/// The end of the longest run of sectors that begins at one.
fn run_end(mask: &[u32], first: u32) -> u32
    requires here { first < 32 * length mask.now }
    requires long { length mask.now ≤ most_words }
    ensures run { runs_from mask.now first (32 * length mask.now - first) ≡
        run_block first result (is_marked mask.now first)
        ∷ runs_from mask.now result (32 * length mask.now - result) }
    ensures some { first < result }
    ensures within { result ≤ 32 * length mask.now }
{
    let sectors = mask.len() as u32 * 32;
    let marked = is_marked(mask, first);
    let mut end = first + 1;
    while end < sectors {
        if is_marked(mask, end) != marked {
            return end;
        }
        end += 1;
    }
    end
}

/// The sectors from one up to another, as a block.
fn run_block(first: u32, end: u32, marked: bool) -> Block
    requires { first ≤ end }
    ensures { result ≡ run_block first end marked }
{
    Block {
        start: SECTOR as u64 * u64::from(first),
        size: SECTOR as u64 * u64::from(end - first),
        mark: if marked { b'+' } else { b'-' },
    }
}

/// Writes a line for each longest run.
fn write_runs<K: Sink>(mask: &[u32], sink: &mut K) -> Result<(), SinkFailed>
    requires { length mask.now ≤ most_words }
    ensures { Writes K.means sink.old sink.new (blocks_text (runs_of mask.now)) result }
{
    let sectors = mask.len() as u32 * 32;
    let mut first = 0;
    while first < sectors {
        let end = run_end(mask, first);
        let block = run_block(first, end, is_marked(mask, first));
        match write_text(&block_line(block), sink) {
            Ok(()) => first = end,
            Err(fault) => return Err(fault),
        }
    }
    Ok(())
}

/// Writes the map of a mask: a block for each longest run of sectors that are in it and of sectors that aren't. The mask
/// has at most 6,888 words. A failure leaves a front of the text written.
pub fn write_map<K: Sink>(mask: &[u32], sink: &mut K) -> Result<(), SinkFailed>
    requires { length mask.now ≤ most_words }
    ensures { Writes K.means sink.old sink.new (map_text mask.now) result }
{
    match write_text(HEAD.as_bytes(), sink) {
        Ok(()) => write_runs(mask, sink),
        Err(fault) => Err(fault),
    }
}
