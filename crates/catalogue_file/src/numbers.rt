// Numbers written in bytes, the lowest byte first.
ghost use Rattle.std.specs.Prelude.{◌≡◌, ◌^◌, ◌<◌, ◌≤◌, length};
ghost use Rattle.catalogue_file.specs.Numbers.{number};

// The number that up to four bytes write.
pub fn read_number(bytes: &[u8]) -> usize
    requires { length bytes.now ≤ 4 }
    ensures value { result ≡ number bytes.now }
    ensures small { result < 2 ^ 32 }
{
    let mut padded = [0; 4];
    padded[..bytes.len()].copy_from_slice(bytes);
    u32::from_le_bytes(padded) as usize
}
