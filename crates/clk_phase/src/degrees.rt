//! Degrees and steps.

ghost use Rattle.std.specs.Prelude.{◌≡◌, ◌<◌, ◌≤◌};
ghost use Rattle.clk_phase.specs.Phases.{best, wanted};

/// The degrees from 0 to 359 that are as many turns away from these as need be.
pub(crate) fn wanted(degrees: i32) -> u32
    ensures value { result ≡ wanted degrees }
    ensures less { result < 360 }
{
    degrees.rem_euclid(360).unsigned_abs()
}

/// The greatest step whose degrees are at most these. By one division: step k is among them if and only
/// if 360 k is below (degrees + 1) steps.
pub(crate) fn best(steps: u32, degrees: u32) -> u32
    requires some { 0 < steps }
    requires few { steps ≤ 360 }
    requires less { degrees < 360 }
    ensures value { result ≡ best steps degrees }
    ensures within { result < steps }
{
    ((degrees + 1) * steps - 1) / 360
}
