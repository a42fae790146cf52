// Blocks of bits as text: digits 0 and 1, white space between them, and comments from # to the end of a line.
#![tactic(auto)]

mod block;
mod law;
mod reader;
mod stray;

pub use block::BlockText;
pub use law::{readers_stand_holds, written_blocks_hold};
pub use reader::BitsReader;
pub use stray::Stray;

#[cfg(test)]
mod tests {
    use super::*;
    use std::alloc::Global;
    use std::test::Fail;

    // The bits that a text says.
    fn said(heap: Global, text: &str) -> Result<Vec<u8>, Fail> {
        let mut reader = BitsReader::new();
        let mut bits = Vec::new(heap);
        for byte in text.as_bytes() {
            match reader.take(*byte) {
                Ok(Some(bit)) => bits.push(bit)?,
                Ok(None) => {}
                Err(_) => bits.push(9)?,
            }
        }
        Ok(bits)
    }

    #[test]
    fn text_is_read(rt: HostRuntime) -> Result<(), Fail> {
        let bits = said(rt.alloc(), "# block 10\n01 1\t0\r\n1x#1 0\n1")?;
        assert_eq!(rt; bits.as_slice(), [0, 1, 1, 0, 1, 9, 1].as_slice());
        Ok(())
    }

    #[test]
    fn stray_byte_has_its_line(rt: HostRuntime) {
        let mut reader = BitsReader::new();
        assert_eq!(rt; reader.take(b'\n'), Ok(None));
        assert_eq!(rt;
            reader.take(b'2'),
            Err(Stray {
                line: 2,
                byte: b'2'
            })
        );
    }

    #[test]
    fn block_is_written(rt: HostRuntime) -> Result<(), Fail> {
        let text = BlockText(&[1, 0, 0, 1]).to_string(rt.alloc())?;
        assert_eq!(rt; text.as_str(), "1001\n");
        Ok(())
    }
}
