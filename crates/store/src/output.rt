// Writing a value into a lent buffer.
ghost use Rattle.std.specs.Prelude.{◌≡◌, ◌≤◌, ◌++◌, length, drop};
ghost use Rattle.value.specs.Values.{bytes_of};

use value::Value;

/// Copies a value to the start of the buffer, and tells its length.
pub(crate) fn write_value(value: &Value, buffer: &mut [u8]) -> usize
    requires { 24 ≤ length buffer.old }
    ensures answer { result ≡ length (bytes_of value.now) }
    ensures after { buffer.new ≡ bytes_of value.now ++ drop (length (bytes_of value.now)) buffer.old }
{
    let bytes = value.as_slice();
    let len = bytes.len();
    buffer[0..len].copy_from_slice(bytes);
    len
}
