// The numbers of a packed frame: words of 32 bits as signed counts, in metres or as numbers of a rotation.
ghost use Rattle.std.specs.Prelude.{◌<◌, ◌≡◌, true};
ghost use Rattle.std.specs.Float.Ieee.Scale.{finite};
ghost use Rattle.telemetry.specs.Quotient.{count_of, quotient};

pub(crate) const MICROMETRES: u32 = 1000000;

pub(crate) const ROTATION_UNITS: u32 = 1073741824;

// Both conversions are exact: a double holds every whole number of at most 53 binary digits.
#[tactic(auto, using(crate::proofs::Quotient::scaled_word, crate::proofs::Quotient::quotient_finite))]
pub(crate) fn scaled(word: u32, units: u32) -> f64
    requires { 0 < units }
    ensures value { result ≡ quotient (count_of word) units }
    ensures is_finite { finite result ≡ true }
{
    f64::from(word.cast_signed()) / f64::from(units)
}
