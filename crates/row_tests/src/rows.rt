use affine_rows::{
    Form, Listed, Name, Names, Row, RowFault, Terms, combine, factor, reduce, tighten, value_at,
};
use std::alloc::{AllocError, Global};
use std::test::Fail;

#[test]
fn lists_and_names_hold_what_they_are_given(rt: HostRuntime) -> Result<(), Fail> {
    let alloc = rt.alloc();
    let mut list = Listed::of_one(alloc, 3u32)?;
    list.push(5)?;
    assert_eq!(rt; list.as_slice(), [3, 5].as_slice());
    assert_eq!(rt; list.get(1).copied(), Some(5));
    assert_eq!(rt; list.get(2).copied(), None);
    assert_eq!(rt; list.len(), 2);
    assert!(rt; !list.is_empty());
    let items = list.into_vec();
    assert_eq!(rt; Listed::from_vec(items).as_slice(), [3, 5].as_slice());
    assert_eq!(rt;
        Listed::from_slice(alloc, &[1u8])?.as_slice(),
        [1].as_slice()
    );
    let name = Name::from_str(alloc, "out")?;
    assert_eq!(rt; name.copy(alloc)?.as_str(), "out");
    assert_eq!(rt;
        Name::new(String::from_str(alloc, "n")?).as_bytes(),
        b"n".as_slice()
    );
    assert_eq!(rt; Names::new(alloc).len(), 0);
    Ok(())
}

#[test]
fn a_form_has_its_parts(rt: HostRuntime) -> Result<(), Fail> {
    let alloc = rt.alloc();
    let form = Form::affine(alloc, -1, Listed::of_one(alloc, (0, 2))?);
    let quasi = form.quasi();
    assert_eq!(rt; quasi.constant, -1);
    assert_eq!(rt; quasi.terms.as_slice(), [(0, 2)].as_slice());
    assert!(rt; quasi.floors.is_empty());
    let mut terms = Terms::new(alloc);
    terms.push((4, -7))?;
    assert_eq!(rt; terms.as_slice(), [(4, -7)].as_slice());
    Ok(())
}

#[test]
fn rows_are_divided(rt: HostRuntime) -> Result<(), Fail> {
    let alloc = rt.alloc();
    let mut reduced = Row {
        constant: -6,
        terms: Terms::from_slice(alloc, &[(0, 4), (2, -10)])?,
        equal: true,
    };
    reduce(&mut reduced);
    assert_eq!(rt; reduced.constant, -3);
    assert_eq!(rt; reduced.terms.as_slice(), [(0, 2), (2, -5)].as_slice());
    let mut tight = Row {
        constant: -7,
        terms: Terms::from_slice(alloc, &[(0, 4), (2, -10)])?,
        equal: false,
    };
    tighten(&mut tight);
    assert_eq!(rt; tight.constant, -4);
    assert_eq!(rt; tight.terms.as_slice(), [(0, 2), (2, -5)].as_slice());
    Ok(())
}

#[test]
fn a_variable_cancels(rt: HostRuntime) -> Result<(), Fail> {
    let alloc = rt.alloc();
    let lower = Row {
        constant: -1,
        terms: Terms::from_slice(alloc, &[(0, 2), (1, 4)])?,
        equal: false,
    };
    let upper = Row {
        constant: 5,
        terms: Terms::from_slice(alloc, &[(0, -6), (2, 3)])?,
        equal: true,
    };
    assert_eq!(rt; factor(upper.terms.as_slice(), 2), 3);
    assert_eq!(rt; value_at(&upper, &[2, 8, -1]), -10);
    let sum = combine(alloc, &lower, &upper, 0);
    let constant = match &sum {
        Ok(row) => row.constant,
        Err(_) => 0,
    };
    assert_eq!(rt; constant, 2);
    Ok(())
}
