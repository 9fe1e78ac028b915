// Variables of a script.
use rss_base::{Call, Name, Reply, Tid};
use rss_images::assert_same;
use rss_line::{Line, LineFault, Names, read_line};
use std::alloc::Global;
use std::fmt::Write;
use std::test::Fail;

/// How many variables there are at once.
const MANY: u32 = 100_000;

/// A name of one letter and decimals.
fn name_of(alloc: Global, number: u32) -> Result<Name, Fail> {
    let mut text = String::new(alloc);
    write!(text, "v{number}")?;
    let mut bytes = [0; 16];
    for (place, byte) in bytes.iter_mut().zip(text.as_bytes()) {
        *place = *byte;
    }
    Ok(Name { bytes })
}

/// An identifier that hangs on the number.
fn tid_of(number: u32) -> Tid {
    Tid {
        page: number / 128,
        slot: (number % 128) as u16,
    }
}

fn bind(names: &mut Names, variable: Name, reply: &Reply) -> Result<(), Fail> {
    names.reserve()?;
    names.bind(variable, reply);
    Ok(())
}

/// The identifier of a line that fetches.
fn fetched(alloc: Global, line: &str, names: &Names) -> Option<Tid> {
    match read_line(alloc, line.as_bytes(), names) {
        Ok(
            Line::Call {
                call: Call::Fetch(_, _, tid),
                ..
            },
        ) => Some(tid),
        _ => None,
    }
}

/// The variable of this number stands for its identifier.
fn assert_stands(alloc: Global, number: u32, names: &Names) -> Result<(), Fail> {
    let mut line = String::new(alloc);
    write!(line, "fetch 1 r $v{number}")?;
    let found = fetched(alloc, line.as_str(), names);
    assert_same(&found, &Some(tid_of(number)), line.as_bytes())
}

#[test]
fn many_variables_stand_for_what_they_got(rt: HostRuntime) -> Result<(), Fail> {
    let alloc = rt.alloc();
    let mut names = Names::new(alloc);
    for number in 0..MANY {
        bind(
            &mut names,
            name_of(alloc, number)?,
            &Reply::Tid(tid_of(number)),
        )?;
    }
    for number in [0, 1, 50_000, MANY - 1] {
        assert_stands(alloc, number, &names)?;
    }
    Ok(())
}

#[test]
fn a_number_is_no_identifier(rt: HostRuntime) -> Result<(), Fail> {
    let alloc = rt.alloc();
    let mut names = Names::new(alloc);
    let variable = name_of(alloc, 7)?;
    bind(&mut names, variable, &Reply::Tid(tid_of(7)))?;
    assert_stands(alloc, 7, &names)?;
    bind(&mut names, variable, &Reply::Number(7))?;
    let line = b"fetch 1 r $v7";
    let is_words = matches!(read_line(alloc, line, &names), Err(LineFault::Words));
    assert_same(&is_words, &true, line)
}

#[test]
fn a_line_keeps_its_variable(rt: HostRuntime) -> Result<(), Fail> {
    let alloc = rt.alloc();
    let names = Names::new(alloc);
    let line = b" $v7  =  begin 1 ";
    let Ok(Line::Call { bind, .. }) = read_line(alloc, line, &names) else {
        return Err("the line is no call".into());
    };
    assert_same(&bind, &Some(name_of(alloc, 7)?), line)
}
