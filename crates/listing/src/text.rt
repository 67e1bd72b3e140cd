// Fields of a line, put behind what a writer has written.
// Kept: put by hand, and no `write!`, which promises its bytes only where it answers Ok, and nowhere that it does: a line is promised wherever it fits.
ghost use Rattle.std.specs.Prelude.{◌+◌, ◌≤◌, ◌≡◌, ◌∷◌, length};
ghost use Rattle.std.specs.Float.{binary64};
ghost use Rattle.std.specs.Float.Ieee.{to_bits};
ghost use Rattle.limits.specs.Limits.{pose_floats};
ghost use Rattle.listing.specs.Listing.{blank, decimal_text, float_text, fields_text, pose_fields};
ghost use Rattle.listing.specs.Widths.{float_bytes, pose_bytes};
ghost use Rattle.putting.specs.Putting.{Puts};

use arithmetic::pose::Pose;
use putting::Writer;

pub(crate) const BLANK: u8 = 32;

pub(crate) const NEWLINE: u8 = 10;

// The pattern that stands for every NaN.
const NAN_BITS: u64 = 0x7ff8_0000_0000_0000;

// A blank and the decimal digits of n.
pub(crate) fn put_number(writer: &mut Writer<'_>, n: u32)
    requires { writer.old.used + length (blank ∷ decimal_text n) ≤ length writer.old.bytes.now }
    ensures { Puts writer.old (blank ∷ decimal_text n) writer.new }
{
    let mut digits = [0u8; 20];
    let count = io::decimal(u64::from(n), &mut digits);
    writer.put_byte(BLANK);
    writer.put_bytes(&digits[..count]);
}

// A blank and the 16 hexadecimal digits of x.
fn put_float(writer: &mut Writer<'_>, x: f64)
    requires { writer.old.used + float_bytes ≤ length writer.old.bytes.now }
    ensures { Puts writer.old (blank ∷ float_text x) writer.new }
{
    let mut digits = [0u8; 16];
    let count = io::hex(bits_of(x), 16, &mut digits);
    writer.put_byte(BLANK);
    writer.put_bytes(&digits[..count]);
}

#[tactic(auto, using(crate::proofs::Digits::to_bits_nan))]
fn bits_of(x: f64) -> u64
    ensures { result ≡ to_bits binary64 x }
{
    if x.is_nan() {
        return NAN_BITS;
    }
    x.to_bits()
}

// The seven floats that end a line.
pub(crate) fn put_pose(writer: &mut Writer<'_>, pose: Pose)
    requires { writer.old.used + pose_bytes pose_floats ≤ length writer.old.bytes.now }
    ensures { Puts writer.old (fields_text (pose_fields pose)) writer.new }
{
    for number in <[f64; 7]>::from(pose) {
        put_float(writer, number);
    }
    writer.put_byte(NEWLINE);
}
