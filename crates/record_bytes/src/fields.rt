// The fields of a record as bytes, written (01 "The month file"): "Numbers are big-endian; net supply and price are two's complement."
ghost use Rattle.std.specs.Prelude.{◌≡◌, ◌+◌, ◌≤◌, length};
ghost use Rattle.std.proofs.lemmas.List.Edits.{sets};
ghost use Rattle.std.specs.Int.Signed.{mag};
ghost use Rattle.record_bytes.specs.Fields.{uncomplemented, glue, total};
ghost use Rattle.rules.specs.Record.{bytes_of};

// Two's complement, for the width whose largest number is `top`: a negative number stands in the upper half.
pub fn unsigned(z: i64, top: u64) -> u64
    requires { mag z ≤ top }
    ensures { result ≡ uncomplemented top z }
{
    if 0 <= z {
        return z as u64;
    }
    top - ((-1 - z) as u64)
}

// A number into `width` bytes from a place on, from the low end.
pub fn put_number(d: &mut [u8], at: usize, width: usize, value: u64)
    requires { at + width ≤ length d.old }
    ensures { d.new ≡ sets d.old at (bytes_of width value) }
{
    let mut left = value;
    for k in (0..width).rev() {
        d[at + k] = (left % 256) as u8;
        left /= 256;
    }
}

// Numbers one after the other, each into its width, from the start of a part.
pub fn put_all(d: &mut [u8], widths: &[usize], values: &[u64])
    requires { (length widths.now ≡ length values.now) × (total widths.now ≤ length d.old) }
    ensures { d.new ≡ sets d.old 0 (glue widths.now values.now) }
{
    let mut at: usize = 0;
    for (i, width) in widths.iter().enumerate() {
        put_number(d, at, *width, values[i]);
        at += *width;
    }
}

// Bytes as they are, from a place on.
pub fn put_bytes(d: &mut [u8], at: usize, bytes: &[u8])
    requires { at + length bytes.now ≤ length d.old }
    ensures { d.new ≡ sets d.old at bytes.now }
{
    let end = at + bytes.len();
    d[at..end].copy_from_slice(bytes);
}
