ghost use Rattle.std.specs.Prelude.{◌≡◌, ◌≤◌, length, true, IfOk};
ghost use Rattle.expr_tree.specs.Scenes.{is_among};
ghost use Rattle.kernel_ir.specs.NameSpace.{iname_vars};

use affine_rows::{Listed, Point};
use kernel_ir::{Fault, Iname, Kernel, Name, Names, Refusal, Site, Tag};
use std::alloc::{AllocError, Global};
use std::test::Fail;

/// A kernel of the inames `i` and `j`, of which `j` is on a group axis.
fn two_inames(alloc: Global) -> Result<Kernel, Fault>
    ensures names { IfOk result (λ k. length k.names ≤ 2) }
    ensures inames { IfOk result (λ k. is_among (iname_vars k) 1 ≡ true) }
{
    let plain = Iname {
        var: 0,
        tag: Tag::Plain,
    };
    let group = Iname {
        var: 1,
        tag: Tag::Group(0),
    };
    let mut inames = Listed::of_one(alloc, plain)?;
    inames.push(group)?;
    let mut kernel = Kernel {
        names: Names::new(alloc),
        params: Listed::new(alloc),
        inames,
        priority: Listed::from_slice(alloc, &[1, 0])?,
        rows: Listed::new(alloc),
        assumptions: Listed::new(alloc),
        arrays: Listed::new(alloc),
        temps: Listed::new(alloc),
        rules: Listed::new(alloc),
        insns: Listed::new(alloc),
    };
    kernel.fresh(alloc, &Name::from_str(alloc, "i")?)?;
    kernel.fresh(alloc, &Name::from_str(alloc, "j")?)?;
    Ok(kernel)
}

/// The number of the rule that refused.
fn rule_of(answer: &Result<u32, Fault>) -> Option<u8> {
    match answer {
        Err(Fault::Rule(refusal)) => Some(refusal.number),
        _ => None,
    }
}

/// Asked of a copy: the variable and the tag of `j`, and the rules that refuse an unknown name and a name twice.
fn answers(alloc: Global) -> Result<(u32, Tag, Option<u8>, Option<u8>), Fault> {
    let mut kernel = two_inames(alloc)?.copy(alloc)?;
    let name = Name::from_str(alloc, "j")?;
    let unknown = kernel.find(alloc, &Name::from_str(alloc, "k")?);
    let var = kernel.find(alloc, &name)?;
    let tag = kernel.tag(1);
    let taken = kernel.fresh(alloc, &name);
    Ok((var, tag, rule_of(&unknown), rule_of(&taken)))
}

#[test]
fn names_are_numbered_once(rt: HostRuntime) -> Result<(), Fail> {
    let answers = match answers(rt.alloc()) {
        Ok(answers) => Some(answers),
        Err(_) => None,
    };
    assert_eq!(rt; answers, Some((1, Tag::Group(0), Some(1), Some(2))));
    Ok(())
}

/// A limit of four names, passed on the third line, with a point.
fn passed(alloc: Global) -> Result<Refusal, AllocError> {
    let point = Point {
        over: 2,
        at: Listed::of_one(alloc, 3)?,
    };
    Ok(
        Refusal::limit(alloc, Site::Script, "names", 4)?
            .at_line(3)
            .with_point(point),
    )
}

#[test]
fn a_refusal_keeps_its_parts(rt: HostRuntime) -> Result<(), Fail> {
    let refusal = passed(rt.alloc())?;
    assert_eq!(rt;
        (refusal.site, refusal.line, refusal.number),
        (Site::Script, 3, 3)
    );
    assert_eq!(rt;
        refusal.names.get(0).map(|name| name.as_str()),
        Some("names")
    );
    assert_eq!(rt; refusal.numbers.as_slice(), [4].as_slice());
    assert_eq!(rt; refusal.point.as_ref().map(|point| point.over), Some(2));
    Ok(())
}
