// The words of a line of arguments, parted by single blanks.
ghost use Rattle.std.specs.Prelude.{◌≤◌, length};

use super::stream::{behind, find};

// How many words the line has; 4 where it has more than three.
pub fn argument_count(line: &[u8]) -> usize {
    if line.len() == 0 {
        return 0;
    }
    let second = behind(line, 0, b' ');
    if second == line.len() {
        return 1;
    }
    let third = behind(line, second, b' ');
    if third == line.len() {
        return 2;
    }
    let fourth = behind(line, third, b' ');
    if fourth == line.len() {
        return 3;
    }
    4
}

pub fn first_end(line: &[u8]) -> usize
    ensures { result ≤ length line.now }
{
    find(line, 0, b' ')
}

pub fn second_start(line: &[u8]) -> usize
    ensures { result ≤ length line.now }
{
    behind(line, 0, b' ')
}

pub fn second_end(line: &[u8], start: usize) -> usize
    requires { start ≤ length line.now }
    ensures { (start ≤ result) × (result ≤ length line.now) }
{
    find(line, start, b' ')
}
