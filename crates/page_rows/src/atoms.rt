// The atoms and numbers of a page, as the kernel has them: declared word n is variable number S + n, temporary n is S + D + n.
ghost use Rattle.std.specs.Prelude.{◌≡◌, ◌≤◌, ◌<◌};
ghost use Rattle.language.specs.Trees.{variable};
ghost use Rattle.writers_rows.specs.Atoms.{atom_tree as kernel_tree, AtomFits as KernelFits};
ghost use Rattle.page_words.specs.Texts.{AtomFits, NameFits};
ghost use Rattle.page_words.specs.Trees.{place_tree, atom_tree};
ghost use Rattle.page_rows.specs.Fits.{most_names, SmallSizes};

use page::Sizes;
use page_words::PageAtom;

// The number of the variable that a name is.
pub fn variable_number(sizes: Sizes, atom: PageAtom) -> usize
    requires { SmallSizes sizes × NameFits most_names atom }
    ensures { (place_tree sizes atom ≡ variable result) × (result < 65536) }
{
    match atom {
        PageAtom::Constant(_) => 0,
        PageAtom::Variable(number) => number as usize,
        PageAtom::Declared(number) => sizes.store + number as usize,
        PageAtom::Temporary(number) => sizes.store + sizes.declared + number as usize,
    }
}

pub fn kernel_atom(sizes: Sizes, atom: PageAtom) -> writers_rows::KernelAtom
    requires { SmallSizes sizes × AtomFits most_names atom }
    ensures { (kernel_tree result ≡ atom_tree sizes atom) × KernelFits result }
{
    match atom {
        PageAtom::Constant(value) => writers_rows::KernelAtom::Constant(value),
        PageAtom::Variable(number) => writers_rows::KernelAtom::Variable(number as usize),
        PageAtom::Declared(number) => writers_rows::KernelAtom::Variable(
            sizes.store + number as usize,
        ),
        PageAtom::Temporary(number) => {
            writers_rows::KernelAtom::Variable(sizes.store + sizes.declared + number as usize)
        }
    }
}
