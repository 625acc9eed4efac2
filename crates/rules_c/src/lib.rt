// The panel's number of a day, for callers in C and Rust.
#![tactic(auto)]

ghost use Rattle.std.specs.Prelude.{◌≡◌};
ghost use Rattle.rules.specs.Verdict.{panel_number};

// The verdict of version 9.6 on one day, for the panel: ten times its code, plus its factor, or 24.
#[unsafe(no_mangle)]
pub extern "C" fn mep_verdict(raw: u64, score: u64, lots: u64, benchmark: u64) -> u64
    ensures { result ≡ panel_number (record { raw = raw; score = score; lots = lots }) benchmark }
{
    rules::mep_verdict(raw, score, lots, benchmark)
}
