// Assertions about a case.
use std::fmt::Debug;
use std::test::Fail;

/// What is found in a case is what is wanted.
pub fn assert_same<T: PartialEq + Debug, C: Debug + Drop>(
    found: &T,
    want: &T,
    case: C,
) -> Result<(), Fail> {
    if *found == *want {
        return Ok(());
    }
    Err(Fail::new(format_args!("in the case {case:?}: {found:?}, and not {want:?}")))
}

/// The same of slices.
pub fn assert_same_slices<T: PartialEq + Debug, C: Debug + Drop>(
    found: &[T],
    want: &[T],
    case: C,
) -> Result<(), Fail> {
    if found == want {
        return Ok(());
    }
    Err(Fail::new(format_args!("in the case {case:?}: {found:?}, and not {want:?}")))
}

/// What is found in a case is anything else.
pub fn assert_other<T: PartialEq + Debug, C: Debug + Drop>(
    found: &T,
    unwanted: &T,
    case: C,
) -> Result<(), Fail> {
    if *found != *unwanted {
        return Ok(());
    }
    Err(Fail::new(format_args!("in the case {case:?}: {found:?}")))
}

/// There is something in a case. Answers it.
pub fn assert_some<T, C: Debug + Drop>(found: Option<T>, case: C) -> Result<T, Fail> {
    match found {
        Some(it) => Ok(it),
        None => Err(Fail::new(format_args!("in the case {case:?}: there is none"))),
    }
}
