// The checksum of what is sent: the CRC-32 of the bytes.
ghost use Rattle.std.specs.Prelude.{◌≡◌};
ghost use Rattle.curve.specs.Checksum.{shifted as shifted_remainder, taken_in as with_byte, checksum};

// The remainder with a byte taken in, lowest bit first.
fn taken_in(remainder: u32, byte: u8) -> u32
    ensures { result ≡ with_byte remainder byte }
{
    let mut now = remainder ^ u32::from(byte);
    for _step in 0..8u32 {
        now = shifted(now);
    }
    now
}

// The remainder after one shift.
fn shifted(remainder: u32) -> u32
    ensures { result ≡ shifted_remainder remainder }
{
    if remainder & 1 == 1 {
        remainder >> 1 ^ 0xedb8_8320
    } else {
        remainder >> 1
    }
}

pub(crate) fn crc32(bytes: &[u8]) -> u32
    ensures { result ≡ checksum bytes.now }
{
    bytes
        .iter()
        .fold(u32::MAX, |remainder, byte| taken_in(remainder, *byte))
        ^ u32::MAX
}

#[cfg(test)]
mod tests {
    use super::*;
    use std::test::Fail;

    // The value by which a CRC-32 is known.
    #[test]
    fn digits_have_the_known_checksum(rt: HostRuntime) -> Result<(), Fail> {
        assert_eq!(rt; crc32(b"123456789"), 0xcbf4_3926);
        Ok(())
    }
}
