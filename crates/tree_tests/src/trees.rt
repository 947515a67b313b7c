ghost use Rattle.std.specs.Prelude.{◌≡◌, ◌<◌, ◌≤◌, ◌+◌, ◌^◌, pos, [], IfOk, OnOk, unsigned_abs};
ghost use Rattle.affine_rows.specs.Forms.{affine};
ghost use Rattle.expr_tree.specs.declared.tree.Cell.TheVariants.{Array};
ghost use Rattle.expr_tree.specs.declared.tree.Rel.TheVariants.{Less};
ghost use Rattle.expr_tree.specs.declared.tree.Test.TheVariants as test;
ghost use Rattle.std.specs.Result.{IfErr};
ghost use Rattle.expr_tree.specs.declared.tree.Node.TheVariants.{Read};
ghost use Rattle.expr_tree.specs.Rewritten.{tree_of};
ghost use Rattle.expr_tree.specs.Samples.{sample_place, sample_product, sample_sum, sample_value};

use affine_rows::{Form, Listed, Vars, copy_forms};
use expr_tree::{
    Cell, Expr, ExprFault, MAX_DEPTH, Node, Op, Rel, Rewriting, Sight, Steps, Test, laws, make,
};
use std::alloc::Global;
use std::marker::Brand;
use std::sync::ledger::{Blank, Ledger};
use std::test::Fail;
use wrap_words::{Kind, Word};

/// Variables that are 3, arrays that hold 2^31 and temporaries that hold 5.
#[derive(Drop)]
struct Sample {
    number: i64,
}

impl Vars for Sample {
    ghost number = { λ s v. s.number };

    fn var(&self, _var: u32) -> i64 {
        self.number
    }
}

impl Sight for Sample {
    ghost use Rattle.expr_tree.specs.Samples.{no_subscripts_fit, sample_store};

    ghost store = { λ s. sample_store };

    fn kind(&self, cell: &Cell) -> Kind {
        match cell {
            Cell::Array(_) => Kind::U32,
            Cell::Temp(_) => Kind::I32,
        }
    }

    fn cell(&self, cell: &Cell, _place: &[i64]) -> Word {
        match cell {
            Cell::Array(_) => Word { bits: 2147483648 },
            Cell::Temp(_) => Word { bits: 5 },
        }
    }

    ghost places_fit = { λ s cell place h. no_subscripts_fit place h };
}

/// A read of the ninth array.
fn ninth<L: Ledger>(alloc: Global, place: Listed<Form>, blank: Blank) -> Result<Expr, ExprFault>
    requires name { blank.name ≡ L.name }
    requires parts { blank.parts ≡ L.parts }
    requires some { 0 < blank.parts }
    ensures tree { IfOk result (λ e. e ≡ tree_of (Read (Array 9) place)) }
    ensures fault { IfErr result (λ f. f ≡ ExprFault.OutOfMemory) }
{
    let mut steps = Steps::<L>::open(blank);
    make(alloc, Node::Read(Cell::Array(9), place), &mut steps)
}

/// The same, under a counter of its own.
fn ninth_uncounted(alloc: Global, place: Listed<Form>) -> Result<Expr, ExprFault>
    ensures tree { IfOk result (λ e. e ≡ tree_of (Read (Array 9) place)) }
    ensures fault { IfErr result (λ f. f ≡ ExprFault.OutOfMemory) }
{
    ninth::<Brand>(alloc, place, Blank::new(1))
}

/// Puts the ninth array for another, 7 for forms and 8 for inames.
#[derive(Drop)]
struct Renaming {
    from: u32,
}

impl Rewriting for Renaming {
    ghost use Rattle.expr_tree.specs.Samples.{renaming};

    ghost rules = { λ s. renaming s.from };

    fn leaf(&self, alloc: Global, node: &Node) -> Result<Option<Expr>, ExprFault> {
        match node {
            Node::Read(Cell::Array(array), place) => {
                if *array == self.from {
                    let place = copy_forms(alloc, place.as_slice())?;
                    Ok(Some(ninth_uncounted(alloc, place)?))
                } else {
                    Ok(None)
                }
            }
            _ => Ok(None),
        }
    }

    fn form(&self, alloc: Global, _form: &Form) -> Result<Option<Form>, ExprFault> {
        Ok(Some(Form::affine(alloc, 7, Listed::new(alloc))))
    }

    fn over(&self, alloc: Global, _inames: &[u32]) -> Result<Option<Listed<u32>>, ExprFault> {
        Ok(Some(Listed::of_one(alloc, 8)?))
    }
}

/// Puts one tree for every leaf, and refuses forms.
#[derive(Drop)]
struct Putting {
    tree: Expr,
}

impl Rewriting for Putting {
    ghost use Rattle.std.specs.Prelude.{Option, Some, None, Ok, Err};
    ghost use Rattle.expr_tree.specs.declared.build.ExprFault.TheVariants.{Limit};

    ghost rules = { λ s. record {
      leaf = λ n. Ok (Some s.tree);
      form = λ q. Err Limit;
      over = λ inames. Ok None;
    } };

    fn leaf(&self, _alloc: Global, _node: &Node) -> Result<Option<Expr>, ExprFault> {
        Ok(Some(self.tree.copy()?))
    }

    fn form(&self, _alloc: Global, _form: &Form) -> Result<Option<Form>, ExprFault> {
        Err(ExprFault::Limit)
    }

    fn over(&self, _alloc: Global, _inames: &[u32]) -> Result<Option<Listed<u32>>, ExprFault> {
        Ok(None)
    }
}

/// A number under so many signs.
fn under_signs<L: Ledger>(
    alloc: Global,
    signs: u32,
    steps: &mut Steps<L>,
) -> Result<Expr, ExprFault> {
    let mut tree = make(alloc, Node::Literal(1), steps)?;
    for _ in 0..signs {
        tree = make(alloc, Node::Neg(tree), steps)?;
    }
    Ok(tree)
}

fn is_too_deep(made: &Result<Expr, ExprFault>) -> bool {
    matches!(made, Err(ExprFault::Depth))
}

/// Whether `Depth` is answered for a sign over the deepest tree, for the deepest tree with a deeper leaf, and for one
/// that is less deep, and whether `Limit` is answered for a test of forms.
fn refusals<L: Ledger>(alloc: Global, steps: &mut Steps<L>) -> Result<[bool; 4], ExprFault> {
    let deepest = under_signs(alloc, MAX_DEPTH - 1, steps)?;
    let less_deep = under_signs(alloc, MAX_DEPTH - 2, steps)?;
    let by = Putting {
        tree: under_signs(alloc, 1, steps)?,
    };
    let forms = Test::Index(
        Rel::Less,
        Form::affine(alloc, 1, Listed::new(alloc)),
        Form::affine(alloc, 2, Listed::new(alloc)),
    );
    let over = make(alloc, Node::Neg(deepest.copy()?), steps);
    let deeper = deepest.rewrite(alloc, &by, steps);
    let as_deep = less_deep.rewrite(alloc, &by, steps);
    let limit = forms.rewrite(alloc, &by, steps);
    Ok([
        is_too_deep(&over),
        is_too_deep(&deeper),
        is_too_deep(&as_deep),
        matches!(limit, Err(ExprFault::Limit)),
    ])
}

/// `a[i] + n`, for the array of a number.
fn read_plus<L: Ledger>(
    alloc: Global,
    array: u32,
    number: u64,
    steps: &mut Steps<L>,
) -> Result<Expr, ExprFault>
    ensures tree { IfOk result (λ e. e ≡ sample_sum (Array array) sample_place number) }
    ensures counted { OnOk result (steps.new ≡ steps.old + 3) }
{
    let form = Form::affine(alloc, 0, Listed::of_one(alloc, (0, 1))?);
    let place = Listed::of_one(alloc, form)?;
    let read = make(alloc, Node::Read(Cell::Array(array), place), steps)?;
    let literal = make(alloc, Node::Literal(number), steps)?;
    make(alloc, Node::Bin(Op::Add, read, literal), steps)
}

/// `(a[i] + 1)*(b[i] + 2)`
fn product<L: Ledger>(alloc: Global, steps: &mut Steps<L>) -> Result<Expr, ExprFault>
    ensures tree { IfOk result (λ e. e ≡ sample_product sample_place) }
    ensures counted { OnOk result (steps.new ≡ steps.old + 7) }
{
    let first = read_plus(alloc, 0, 1, steps)?;
    let second = read_plus(alloc, 1, 2, steps)?;
    make(alloc, Node::Bin(Op::Mul, first, second), steps)
}

/// The product with one array renamed, for seven steps and, where that is `a`, two more.
fn renamed<L: Ledger>(alloc: Global, by: &Renaming, steps: &mut Steps<L>) -> Result<Expr, ExprFault>
    ensures replaced { OnOk result (by.now.from ≡ 0 → steps.new ≡ steps.old + 9) }
    ensures kept { OnOk result (by.now.from ≡ 5 → steps.new ≡ steps.old + 7) }
{
    let tree = product(alloc, steps)?;
    let rewritten = tree.rewrite(alloc, by, steps)?;
    Ok(rewritten)
}

/// The array of `a[i]` in a product.
fn first_array(product: &Expr) -> Option<u32> {
    let Node::Bin(_, sum, _) = product.node() else {
        return None;
    };
    let Node::Bin(_, read, _) = sum.node() else {
        return None;
    };
    let Node::Read(Cell::Array(array), _) = read.node() else {
        return None;
    };
    Some(*array)
}

fn first_arrays<L: Ledger>(
    alloc: Global,
    steps: &mut Steps<L>,
) -> Result<[Option<u32>; 2], ExprFault> {
    let replaced = renamed(alloc, &Renaming { from: 0 }, steps)?;
    let kept = renamed(alloc, &Renaming { from: 5 }, steps)?;
    Ok([first_array(&replaced), first_array(&kept)])
}

/// `(1 < a ? (u32)(-t) : 0) + 7`
fn small_tree<L: Ledger>(alloc: Global, steps: &mut Steps<L>) -> Result<Expr, ExprFault>
    ensures { IfOk result (λ e. e ≡ sample_value) }
{
    let one = make(alloc, Node::Literal(1), steps)?;
    let array = make(alloc, Node::Read(Cell::Array(0), Listed::new(alloc)), steps)?;
    let temp = make(alloc, Node::Read(Cell::Temp(0), Listed::new(alloc)), steps)?;
    let negated = make(alloc, Node::Neg(temp), steps)?;
    let cast = make(alloc, Node::Cast(Kind::U32, negated), steps)?;
    let zero = make(alloc, Node::Literal(0), steps)?;
    let pick = make(
        alloc,
        Node::Pick(Test::Words(Rel::Less, one, array), cast, zero),
        steps,
    )?;
    let seven = make(alloc, Node::Literal(7), steps)?;
    make(alloc, Node::Bin(Op::Add, pick, seven), steps)
}

fn small_word<L: Ledger>(alloc: Global, steps: &mut Steps<L>) -> Result<Word, ExprFault> {
    let tree = small_tree(alloc, steps)?;
    Ok(tree.value(Kind::U32, &Sample { number: 3 }))
}

/// `constant < 9`
fn below(alloc: Global, constant: i64) -> Test
    requires { unsigned_abs constant ≤ 2 ^ 62 }
    ensures { result ≡ test.Index Less (affine constant []) (affine (pos 9) []) }
{
    Test::Index(
        Rel::Less,
        Form::affine(alloc, constant, Listed::new(alloc)),
        Form::affine(alloc, 9, Listed::new(alloc)),
    )
}

/// Whether `3 < 9` holds, whether a copy of it does, and whether it holds with 7 for both.
fn held_tests<L: Ledger>(alloc: Global, steps: &mut Steps<L>) -> Result<[bool; 3], ExprFault> {
    let sight = Sample { number: 3 };
    let test = below(alloc, 3);
    let copied = test.copy(alloc)?;
    let rewritten = test.rewrite(alloc, &Renaming { from: 0 }, steps)?;
    Ok([
        test.holds(Kind::I32, &sight),
        copied.holds(Kind::I32, &sight),
        rewritten.holds(Kind::I32, &sight),
    ])
}

/// What the helpers above answer.
struct HandWork {
    refused: [bool; 4],
    arrays: [Option<u32>; 2],
    word: Word,
    held: [bool; 3],
}

fn seen<L: Ledger>(alloc: Global, blank: Blank) -> Result<HandWork, ExprFault>
    requires name { blank.name ≡ L.name }
    requires parts { blank.parts ≡ L.parts }
    requires some { 0 < blank.parts }
{
    let mut steps = Steps::<L>::open(blank);
    Ok(HandWork {
        refused: refusals(alloc, &mut steps)?,
        arrays: first_arrays(alloc, &mut steps)?,
        word: small_word(alloc, &mut steps)?,
        held: held_tests(alloc, &mut steps)?,
    })
}

#[test]
fn trees_by_hand(rt: HostRuntime) -> Result<(), Fail> {
    let HandWork {
        refused,
        arrays,
        word,
        held,
    } = seen::<Brand>(rt.alloc(), Blank::new(1))?;
    assert_eq!(rt;
        refused,
        [true, true, false, true],
        "a tree is at most 64 deep"
    );
    assert_eq!(rt;
        arrays,
        [Some(9), Some(0)],
        "the first read is replaced, or stays"
    );
    assert_eq!(rt; word.bits, 2, "4294967291 + 7 wraps");
    assert_eq!(rt; held, [true, true, false], "3 < 9, and not 7 < 7");
    laws::plain_meaning();
    laws::rewriting_keeps_the_value();
    laws::all_parts_are_all();
    laws::unreplaced_stays();
    Ok(())
}
