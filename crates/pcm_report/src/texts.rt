//! Texts that are put into a slice one after another.

ghost use Rattle.std.specs.Prelude.{◌≡◌, ◌+◌, ◌*◌, ◌≤◌, length};
ghost use Rattle.std.specs.Fmt.{decimal};
ghost use Rattle.hex.specs.Hex.{encode_lower};
ghost use Rattle.pcm_report.specs.Lines.{bytes_text, field};
ghost use Rattle.pcm_report.specs.Texts.{IsPut};

/// How many digits a number has at most.
pub const DIGITS: usize = 20;

/// Puts a text at a place. Returns the place after it.
pub fn put_text(out: &mut [u8], at: usize, text: &str) -> usize
    requires room { at + length text.now ≤ length out.old }
    ensures put { IsPut text.now at result out.old out.new }
    ensures end { result ≡ at + length text.now }
{
    let end = at + text.len();
    out[at..end].copy_from_slice(text.as_bytes());
    end
}

/// Puts a number at a place, in decimal. Returns the place after it.
pub fn put_number(out: &mut [u8], at: usize, number: u64) -> usize
    requires room { at + DIGITS ≤ length out.old }
    ensures put { IsPut (decimal number) at result out.old out.new }
    ensures within { result ≤ at + DIGITS }
{
    put_text(out, at, itoa::Buffer::new().format(number))
}

// Puts a space, a name, an equals sign and a number.
pub(crate) fn put_field(out: &mut [u8], at: usize, name: &str, number: u64) -> usize
    requires room { at + length name.now + DIGITS + 2 ≤ length out.old }
    ensures put { IsPut (field name.now number) at result out.old out.new }
    ensures within { result ≤ at + length name.now + DIGITS + 2 }
{
    let at = put_text(out, at, " ");
    let at = put_text(out, at, name);
    let at = put_text(out, at, "=");
    put_number(out, at, number)
}

// Puts the bytes that a read got, in hexadecimal, or a dash for none.
pub(crate) fn put_bytes(out: &mut [u8], at: usize, bytes: &[u8]) -> usize
    requires room { at + 2 * length bytes.now + 1 ≤ length out.old }
    ensures put { IsPut (bytes_text bytes.now) at result out.old out.new }
    ensures within { result ≤ at + 2 * length bytes.now + 1 }
{
    if bytes.is_empty() {
        put_text(out, at, "-")
    } else {
        put_hex(out, at, bytes)
    }
}

fn put_hex(out: &mut [u8], at: usize, bytes: &[u8]) -> usize
    requires room { at + 2 * length bytes.now ≤ length out.old }
    ensures put { IsPut (encode_lower bytes.now) at result out.old out.new }
    ensures end { result ≡ at + 2 * length bytes.now }
{
    let end = at + 2 * bytes.len();
    encode(bytes, &mut out[at..end]);
    end
}

fn encode(bytes: &[u8], out: &mut [u8])
    requires room { length out.old ≡ 2 * length bytes.now }
    ensures { out.new ≡ encode_lower bytes.now }
{
    // With this room it can't be refused.
    let _ = hex::encode_to_slice(bytes, out);
}
