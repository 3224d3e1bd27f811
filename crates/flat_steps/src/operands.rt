// What lines are made of: the numbers and operands of a line, the store of a value, the target of a jump.
ghost use Rattle.std.specs.Prelude.{◌≡◌, ◌+◌, ◌*◌, ◌-◌, ◌<◌, length, get_or, set};
ghost use Rattle.words.specs.Word.{natural as natural_of};
ghost use Rattle.arithmetic.specs.Arithmetic.{element as element_of};
ghost use Rattle.machine_operations.specs.Ready.{Bounded};
ghost use Rattle.flat.specs.Lines.{value_of, stored, onward};
ghost use Rattle.flat.specs.Words.{field_at, operand_of, target_of};
ghost use Rattle.flat_steps.specs.Steps.{Makes, ReadyOperand, ReadyJump};

use arithmetic::element;
use flat::lines::word_at;
use words::FaultSort;

// A field that is no negative word, as the number it names.
pub fn number_at(list: &[i32], line: usize, field: usize) -> usize
    requires { (5 * line + field < length list.now) × (natural_of (field_at list.now line field) < 2147483648) }
    ensures { result ≡ natural_of (field_at list.now line field) }
{
    list[5 * line + field] as usize
}

// The value of an operand.
pub fn operand(list: &[i32], line: usize, field: usize, constant: bool, store: &[i32]) -> i32
    requires { ReadyOperand list.now line field constant (length store.now) }
    ensures { result ≡ value_of (operand_of constant (field_at list.now line field)) store.now }
{
    if constant {
        return word_at(list, line, field);
    }
    let at = number_at(list, line, field);
    store[at]
}

// A value is stored, and the following line comes next.
pub fn store_word(value: i32, target: usize, line: usize, store: &mut [i32]) -> usize
    requires { (target < length store.old) × (line < 9223372036854775808) }
    ensures { (result ≡ line + 1) × (store.new ≡ set store.old target value) }
{
    store[target] = value;
    line + 1
}

// What an operation gave is stored, and the following line comes next; or its fault stops the run.
pub fn assign(
    computed: Result<i32, FaultSort>,
    target: usize,
    line: usize,
    store: &mut [i32],
) -> Result<usize, FaultSort>
    requires { (target < length store.old) × (line < 9223372036854775808) }
    ensures { Makes store.old result store.new (onward line (stored target store.old computed)) }
{
    let value = computed?;
    Ok(store_word(value, target, line, store))
}

// Where a jump goes: "a signed jump distance counted from the following line". One sum, since the next line's words wait for it.
pub fn target_of(list: &[i32], line: usize) -> usize
    requires { ReadyJump list.now line }
    ensures { result ≡ target_of line (field_at list.now line 4) }
{
    let following = line as i64 + 1;
    (following + word_at(list, line, 4) as i64) as usize
}

// The bounds test: an array lies from its own bound up to the next.
pub fn locate(bounds: &[usize], array: usize, index: i32) -> Result<usize, FaultSort>
    requires { Bounded bounds.now array }
    ensures { result ≡ element_of (get_or bounds.now array 0) (get_or bounds.now (array + 1) 0 - get_or bounds.now array 0) index }
{
    let base = bounds[array];
    let end = bounds[array + 1];
    element(base, end - base, index).ok_or(FaultSort::Index)
}
