// What is open: blocks, as bytes of an array, the innermost last, 1 for the first branch of an if, which must turn before it closes; and the
// parentheses of a call or of a definition.
ghost use Rattle.std.specs.Prelude.{◌≡◌, false, ◌∷◌, ◌+◌, ◌≤◌, ◌<◌, eqb, length};
ghost use Rattle.page_blocks.specs.Blocks.{outside, turned, shut as shut_of, where_items, where_parameters, behind};
ghost use Rattle.page_scan.specs.Stacks.{blocks_of, open_of, moved_says, depth_in, is_among_items, after_item, after_argument, after_parameter};

use page_words::LineContent;

// What a line stands among: items, or the arguments of a call or the parameters of a definition, between their parentheses.
#[derive(Clone, Copy)]
pub enum Among {
    Items,
    Arguments,
    Parameters,
}

pub fn is_among_items(among: Among) -> bool
    ensures { result ≡ is_among_items among }
{
    match among {
        Among::Items => true,
        Among::Arguments => false,
        Among::Parameters => false,
    }
}

// A line that opens and closes no block, and what the next line stands among: a statement,
fn after_item(among: Among, next: Among, depth: usize) -> Option<(Among, usize)>
    ensures { result ≡ after_item among next depth }
{
    match among {
        Among::Items => Some((next, depth)),
        Among::Arguments => None,
        Among::Parameters => None,
    }
}

// an argument,
fn after_argument(among: Among, next: Among, depth: usize) -> Option<(Among, usize)>
    ensures { result ≡ after_argument among next depth }
{
    match among {
        Among::Items => None,
        Among::Arguments => Some((next, depth)),
        Among::Parameters => None,
    }
}

// and a parameter that is not the last.
fn after_parameter(among: Among, depth: usize) -> Option<(Among, usize)>
    ensures { result ≡ after_parameter among depth }
{
    match among {
        Among::Items => None,
        Among::Arguments => None,
        Among::Parameters => Some((Among::Parameters, depth)),
    }
}

fn push(flag: u8, depth: usize, around: &mut [u8; 81958]) -> Option<(Among, usize)>
    requires { (depth < 81958) × (length around.old ≡ 81958) }
    ensures around_after { moved_says result around.new ≡ Some (outside (eqb flag 1 ∷ blocks_of depth around.old)) }
    ensures result_bound { (depth_in result ≤ depth + 1) × (length around.new ≡ 81958) }
{
    around[depth] = flag;
    let deeper = depth + 1;
    Some((Among::Items, deeper))
}

// A statement, or a function without parameters, opens its block,
fn open_block(
    flag: u8,
    among: Among,
    depth: usize,
    around: &mut [u8; 81958],
) -> Option<(Among, usize)>
    requires { (depth < 81958) × (length around.old ≡ 81958) }
    ensures around_after { moved_says result around.new ≡ where_items (λ blocks. Some (outside (eqb flag 1 ∷ blocks))) (open_of among depth around.old) }
    ensures result_bound { (depth_in result ≤ depth + 1) × (length around.new ≡ 81958) }
{
    match among {
        Among::Items => push(flag, depth, around),
        Among::Arguments => None,
        Among::Parameters => None,
    }
}

// and the last parameter that of its function.
fn open_function(among: Among, depth: usize, around: &mut [u8; 81958]) -> Option<(Among, usize)>
    requires { (depth < 81958) × (length around.old ≡ 81958) }
    ensures around_after { moved_says result around.new ≡ where_parameters (λ blocks. Some (outside (false ∷ blocks))) (open_of among depth around.old) }
    ensures result_bound { (depth_in result ≤ depth + 1) × (length around.new ≡ 81958) }
{
    match among {
        Among::Items => None,
        Among::Arguments => None,
        Among::Parameters => push(0, depth, around),
    }
}

fn turn(depth: usize, around: &mut [u8; 81958]) -> Option<(Among, usize)>
    requires { (depth ≤ 81958) × (length around.old ≡ 81958) }
    ensures around_after { moved_says result around.new ≡ turned (blocks_of depth around.old) }
    ensures result_bound { (depth_in result ≤ depth + 1) × (length around.new ≡ 81958) }
{
    if depth == 0 {
        return None;
    }
    let last = depth - 1;
    if around[last] != 1 {
        return None;
    }
    around[last] = 0;
    Some((Among::Items, depth))
}

fn shut(depth: usize, around: &mut [u8; 81958]) -> Option<(Among, usize)>
    requires { (depth ≤ 81958) × (length around.old ≡ 81958) }
    ensures around_after { moved_says result around.new ≡ shut_of (blocks_of depth around.old) }
    ensures result_bound { (depth_in result ≤ depth + 1) × (length around.new ≡ 81958) }
{
    if depth == 0 {
        return None;
    }
    let last = depth - 1;
    if around[last] == 1 {
        return None;
    }
    Some((Among::Items, last))
}

// `} else {` and `}` stand among items.
fn turn_item(among: Among, depth: usize, around: &mut [u8; 81958]) -> Option<(Among, usize)>
    requires { (depth ≤ 81958) × (length around.old ≡ 81958) }
    ensures around_after { moved_says result around.new ≡ where_items turned (open_of among depth around.old) }
    ensures result_bound { (depth_in result ≤ depth + 1) × (length around.new ≡ 81958) }
{
    match among {
        Among::Items => turn(depth, around),
        Among::Arguments => None,
        Among::Parameters => None,
    }
}

fn shut_item(among: Among, depth: usize, around: &mut [u8; 81958]) -> Option<(Among, usize)>
    requires { (depth ≤ 81958) × (length around.old ≡ 81958) }
    ensures around_after { moved_says result around.new ≡ where_items shut_of (open_of among depth around.old) }
    ensures result_bound { (depth_in result ≤ depth + 1) × (length around.new ≡ 81958) }
{
    match among {
        Among::Items => shut(depth, around),
        Among::Arguments => None,
        Among::Parameters => None,
    }
}

// What is open behind a line, by what is open before it.
pub fn pass_line(
    line: LineContent,
    among: Among,
    depth: usize,
    around: &mut [u8; 81958],
) -> Option<(Among, usize)>
    requires { (depth < 81958) × (length around.old ≡ 81958) }
    ensures around_after { moved_says result around.new ≡ behind line (open_of among depth around.old) }
    ensures result_bound { (depth_in result ≤ depth + 1) × (length around.new ≡ 81958) }
{
    match line {
        LineContent::Empty => after_item(among, Among::Items, depth),
        LineContent::Abort => after_item(among, Among::Items, depth),
        LineContent::Goto(_) => after_item(among, Among::Items, depth),
        LineContent::Label(_) => after_item(among, Among::Items, depth),
        LineContent::Store(_, _) => after_item(among, Among::Items, depth),
        LineContent::Put(_, _, _) => after_item(among, Among::Items, depth),
        LineContent::Opens => open_block(0, among, depth, around),
        LineContent::While(_) => open_block(0, among, depth, around),
        LineContent::If(_) => open_block(1, among, depth, around),
        LineContent::Turns => turn_item(among, depth, around),
        LineContent::Closes => shut_item(among, depth, around),
        LineContent::Return(_) => after_item(among, Among::Items, depth),
        LineContent::OpensCall(_, _) => after_item(among, Among::Arguments, depth),
        LineContent::Argument(_) => after_argument(among, Among::Arguments, depth),
        LineContent::LastArgument(_) => after_argument(among, Among::Items, depth),
        LineContent::OpensFunction(_) => open_block(0, among, depth, around),
        LineContent::OpensParameters(_) => after_item(among, Among::Parameters, depth),
        LineContent::Parameter(_) => after_parameter(among, depth),
        LineContent::LastParameter(_) => open_function(among, depth, around),
    }
}
