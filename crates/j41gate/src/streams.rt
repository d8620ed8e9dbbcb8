// The program's two loops over standard input, a pair at a time, so that a file of any length passes in constant memory
// and a live stream is answered as it comes. What is done with each pair is proved elsewhere.
use crate::crossing::{Direction, cross};
use crate::refused::refused_pair;
use crate::tally::Tally;
use crate::trial::pass;
use raw::{PAIR_OCTETS, Units, read_pair};
use std::io;
use std::io::Write;
use words::WordLaw;

// No input has more octets than a `u64` can count.
const MOST_PAIRS: u64 = u64::MAX / PAIR_OCTETS as u64;

// The report tells of so many refused pairs; it counts them all.
const MOST_TOLD: u64 = 5;

/// Tries the gate on every pair of samples, and reports.
pub(crate) fn report<L: WordLaw>(rt: &HostRuntime, law: &L) -> io::Result<()> {
    let mut units = Units::new(rt.stdin());
    let mut tally = Tally::new(law);
    for (pair, octets) in (0..MOST_PAIRS).zip(&mut units) {
        let outcome = pass(law, &read_pair(&octets?));
        if let Err(fault) = outcome
            && tally.refused < MOST_TOLD
        {
            println!(rt; "{}", refused_pair(pair, fault))?;
        }
        tally.note(outcome);
    }
    println!(rt; "{tally}")?;
    // an incomplete pair
    if units.short() > 0 {
        println!(rt; "short {}", units.short())?;
    }
    Ok(())
}

/// Takes every pair across, and says how many were refused.
pub(crate) fn cross_all(rt: &HostRuntime, direction: Direction) -> io::Result<u64> {
    let mut units = Units::new(rt.stdin());
    let mut output = rt.stdout();
    let mut refused = 0;
    for (pair, octets) in (0..MOST_PAIRS).zip(&mut units) {
        let mut octets = octets?;
        if let Err(fault) = cross(direction, &mut octets) {
            refused += 1;
            eprintln!(rt; "{}", refused_pair(pair, fault))?;
        }
        output.write_all(&octets)?;
    }
    // an incomplete pair
    if units.short() > 0 {
        eprintln!(rt; "short {}", units.short())?;
    }
    Ok(refused)
}
