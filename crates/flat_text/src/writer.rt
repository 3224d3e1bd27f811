// The writer's room: whether the text of a list fits into a buffer. Room is counted down, so that no list is too long to be measured.
ghost use Rattle.std.specs.Prelude.{◌≡◌, ◌*◌, ◌<◌, leb, length};
ghost use Rattle.text_lines.specs.Writer.{bytes_of};
ghost use Rattle.flat.specs.Words.{line_count};
ghost use Rattle.flat_text.specs.Text.{flat_bytes};
ghost use Rattle.flat_text.specs.Writer.{left_of};

use text_numbers::digits::number_size;

// What words leave of `room` bytes, each with the tab or newline behind it.
fn room_behind(words: &[i32], room: usize) -> Option<usize>
    ensures { result ≡ left_of room (bytes_of words.now) }
{
    let mut left = room;
    for word in words {
        let size = number_size(*word) + 1;
        if left < size {
            return None;
        }
        left -= size;
    }
    Some(left)
}

// Whether the text of a header and of whole lines fits into `room` bytes.
pub fn text_fits(header: &[i32], list: &[i32], room: usize) -> bool
    requires header_nonzero { 0 < length header.now }
    requires list_len { length list.now ≡ 5 * line_count list.now }
    ensures { result ≡ leb (length (flat_bytes header.now list.now)) room }
{
    let Some(left) = room_behind(header, room) else {
        return false;
    };
    room_behind(list, left).is_some()
}
