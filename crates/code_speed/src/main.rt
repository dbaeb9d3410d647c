//! A measure of the code: it encodes a segment of 29 data and 3 parity sectors, all at once and sector by sector, and
//! solves one of which three are lost, as many times as its one argument says, or once. The bytes that it went through
//! go to standard output, and the time that each of the three took to standard error.
#![tactic(auto)]

ghost use Rattle.std.specs.Prelude.{◌≡◌, ◌↔◌, ◌++◌, take, IsOk, OnOk};
ghost use Rattle.cartridge_spec.specs.Code.{IsCodeBlock};
ghost use Rattle.gf256_qic.specs.Code.{IsSolvable};
ghost use Rattle.qic_base.specs.CartridgeTerms.{is_lost};

use erasure_solve::{SolveFault, solve};
use qic_base::{LostSet, SECTOR, Sector};
use segment_parity::{Parity, parity_of};
use std::env::Env;
use std::process::ExitCode;
use std::time::{Clock, Duration, Instant};
use std::{env, io};

const DATA: usize = gf256_qic::DATA_SECTORS;

const WHOLE: usize = 32;

/// The bytes of a segment's data sectors, which each way goes through.
const BYTES: u64 = 29_696;

/// The three places that are lost.
const LOST: [usize; 3] = [3, 14, 25];

/// Their mask.
const LOST_MASK: u32 = 0x0200_4008;

fn main(rt: HostRuntime) -> io::Result<ExitCode> {
    let times = repetitions(&rt)?;
    let mut segment = [[0x5A; SECTOR]; WHOLE];
    let encoding = timed_encoding(&rt, &mut segment, times)?;
    let encoded = segment;
    let mut data = [[0x5A; SECTOR]; DATA];
    let (parity, pushing) = timed_pushing(&rt, &mut data, times)?;
    let (whole, solving) = timed_solving(&rt, &mut segment, times)?;
    if !whole || segment != encoded || segment[DATA..] != parity[..] {
        return Ok(ExitCode::FAILURE);
    }
    let bytes = BYTES * u64::from(times);
    println!(rt; "encoded {bytes} bytes")?;
    println!(rt; "solved {bytes} bytes")?;
    eprintln!(rt; "encoding {} ns", encoding.as_nanos())?;
    eprintln!(rt; "pushing {} ns", pushing.as_nanos())?;
    eprintln!(rt; "solving {} ns", solving.as_nanos())?;
    Ok(ExitCode::SUCCESS)
}

/// The number that the one argument says; 1 where there is none.
fn repetitions<R: Env + AllocGlobal>(rt: &R) -> io::Result<u32> {
    match env::args(rt)?.nth(1) {
        Some(word) => word
            .as_str()
            .parse::<u32>()
            .map_err(|_| io::Error::from(io::ErrorKind::InvalidInput)),
        None => Ok(1),
    }
}

/// Encodes the segment so many times, and changes the data by the parity before each but the first.
fn timed_encoding(
    clock: &impl Clock,
    segment: &mut [Sector; WHOLE],
    times: u32,
) -> io::Result<Duration> {
    let start = Instant::now(clock)?;
    encode(segment);
    for i in 1..times {
        segment[i as usize % DATA][i as usize % SECTOR] ^= segment[WHOLE - 1][0];
        encode(segment);
    }
    start.elapsed(clock)
}

/// The same sector by sector, and the parity after the last encoding.
fn timed_pushing(
    clock: &impl Clock,
    data: &mut [Sector; DATA],
    times: u32,
) -> io::Result<([Sector; 3], Duration)> {
    let start = Instant::now(clock)?;
    let mut parity = by_register(data);
    for i in 1..times {
        data[i as usize % DATA][i as usize % SECTOR] ^= parity[2][0];
        parity = by_register(data);
    }
    Ok((parity, start.elapsed(clock)?))
}

/// Whether each solving went well, after three sectors were overwritten.
fn timed_solving(
    clock: &impl Clock,
    segment: &mut [Sector; WHOLE],
    times: u32,
) -> io::Result<(bool, Duration)> {
    let start = Instant::now(clock)?;
    let mut whole = true;
    for i in 0..times {
        overwrite(segment, (i % 251) as u8);
        whole = solved(segment).is_ok() && whole;
    }
    Ok((whole, start.elapsed(clock)?))
}

/// Puts the byte everywhere into the three sectors that are lost.
fn overwrite(segment: &mut [Sector; WHOLE], byte: u8) {
    for place in LOST {
        segment[place] = [byte; SECTOR];
    }
}

/// Puts the parity behind the 29 data sectors.
fn encode(segment: &mut [Sector; WHOLE])
    ensures block { IsCodeBlock segment.new }
    ensures data { take 29 segment.new ≡ take 29 segment.old }
{
    let parity = parity_of(&segment[..DATA]);
    segment[DATA..].copy_from_slice(&parity);
}

/// The parity of 29 data sectors, from the register that an append gives each sector as it writes it.
fn by_register(sectors: &[Sector; DATA]) -> [Sector; 3]
    ensures { IsCodeBlock (sectors.now ++ result) }
{
    let mut parity = Parity::new();
    for sector in sectors {
        parity.push(sector);
    }
    parity.finish()
}

/// Finds the three lost sectors.
fn solved(segment: &mut [Sector; WHOLE]) -> Result<(), SolveFault>
    ensures block { OnOk result (IsCodeBlock segment.new) }
    ensures solved { IsOk result ↔ IsSolvable (is_lost 0x0200_4008) segment.old }
{
    solve(segment, LostSet::from_mask(LOST_MASK))
}
