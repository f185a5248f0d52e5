// Writes the YAPP packet of a file's data: DT.
ghost use Rattle.std.specs.Prelude.{◌≡◌};
ghost use Rattle.fields.specs.Buffer.{written_of, left_of};
ghost use Rattle.packets.specs.Content.{block_form};

use fields::{Limits, WriteError, buffers};

// DT with 1 to 256 bytes, and behind them their checksum in YappC.
#[tactic(auto, unfolding(fields::specs::Buffer::written_of, fields::specs::Buffer::left_of, packets::specs::Content::block_form))]
pub fn write_dt(reply: &mut [u8], block: &[u8], checked: bool) -> Result<usize, WriteError>
    ensures { (result ≡ written_of 259 (block_form checked block.now) reply.old) × (reply.new ≡ left_of 259 (block_form checked block.now) reply.old) }
{
    crate::check_room(reply)?;
    let count = block.len();
    if !(1..=Limits::BLOCK).contains(&count) {
        return Err(WriteError::Formless);
    }
    let mut end = buffers::append_bytes(reply, 0, &[2, (count % 256) as u8]);
    end = buffers::append_bytes(reply, end, block);
    if checked {
        end = buffers::append_byte(reply, end, packets::checksum(block));
    }
    Ok(end)
}
