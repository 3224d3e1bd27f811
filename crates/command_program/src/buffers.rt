// The tables and buffers that a request is answered in.
ghost use Rattle.std.specs.Prelude.{◌≡◌, length};

// The limit of a text, and a byte more, so that a longer one is seen.
pub fn text_buffer() -> [u8; 2097153]
    ensures { 2097153 ≡ length result }
{
    [0; 2097153]
}

// The limit of a store file, and a byte more.
pub fn store_buffer() -> [u8; 197377]
    ensures { 197377 ≡ length result }
{
    [0; 197377]
}

pub fn header_table() -> [i32; 35]
    ensures { 35 ≡ length result }
{
    [0; 35]
}

pub fn row_table() -> [i32; 245880]
    ensures { 245880 ≡ length result }
{
    [0; 245880]
}

pub fn output_buffer() -> [u8; 2950980]
    ensures { 2950980 ≡ length result }
{
    [0; 2950980]
}
