//! Words of a drive's reports and the levels that show them, read off QIC-117's form by hand.

use qic117_commands::{Collector, Shifter, Shown};

/// A word, its width, and the levels between the acknowledgement and the final 1.
const REPORTS: [(u16, u8, &str); 6] = [
    (0x75, 8, "10101110"),
    (0x24, 8, "00100100"),
    (0x12, 8, "01001000"),
    (0x0080, 16, "0000000100000000"),
    (0x0D07, 16, "1110000010110000"),
    (0x0A08, 16, "0001000001010000"),
];

/// How many levels the drive shows as they stand here, each before the host has a word, and the host then takes.
fn bits_shown(shifter: &mut Shifter, collector: &mut Collector, levels: &[u8]) -> usize {
    for at in 0..levels.len() {
        let level = levels[at] == b'1';
        if (shifter.next(), collector.word()) != (Shown::Bit(level), None) {
            return at;
        }
        collector.push(level);
    }
    levels.len()
}

/// What the drive shows behind these levels, and the word that the host has, before and after the final 1, and after a
/// level more. There is none where the levels are others, or the word is too wide.
fn shown_behind(word: u16, width: u8, levels: &str) -> Option<[(Shown, Option<u16>); 3]> {
    if width != 16 && (width != 8 || word > 255) {
        return None;
    }
    let mut shifter = Shifter::load(word, width);
    let mut collector = Collector::new(width);
    if bits_shown(&mut shifter, &mut collector, levels.as_bytes()) != levels.len() {
        return None;
    }
    let before = (shifter.next(), collector.word());
    collector.push(true);
    let after = (shifter.next(), collector.word());
    collector.push(false);
    Some([before, after, (shifter.next(), collector.word())])
}

#[test]
fn a_report_goes_from_end_to_end(rt: HostRuntime) {
    for (word, width, levels) in REPORTS {
        let behind = [
            (Shown::Final, None),
            (Shown::Past, Some(word)),
            (Shown::Past, Some(word)),
        ];
        assert_eq!(rt; shown_behind(word, width, levels), Some(behind), "{word}");
    }
}

#[test]
fn a_final_0_makes_no_word(rt: HostRuntime) {
    for width in [8, 16] {
        let mut collector = Collector::new(width);
        for _ in 0..width {
            collector.push(true);
        }
        collector.push(false);
        let at_the_end = collector.word();
        collector.push(true);
        assert_eq!(rt;
            (at_the_end, collector.word()),
            (None, None),
            "at width {width}"
        );
    }
}
