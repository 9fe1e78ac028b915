// The lines of a generated script.
ghost use Rattle.std.specs.Prelude.{◌≡◌, ℕ, ◌+◌, ◌^◌, ◌<◌, ◌≤◌, Some, IfOk, length, option_map, slice_get};
ghost use Rattle.rss_model.specs.Generator.{opening_lines, department_line, insert_line, connect_line, update_line, begin_lines, update_lines, lines_behind, department_state, fetch_lines, employee_lines, first_employees, closing_lines, generated, most_employees};

use crate::drawing::{drawn, next_state, state_before};
use rss_base::Text;
use std::alloc::{AllocError, Global};

/// The most employees that a script is generated with.
pub const MOST_EMPLOYEES: u32 = 100_000;

/// How many lines a script has before those of its employees.
const OPENING_LINES: u64 = 19;

/// How many it has after them.
const CLOSING_LINES: u64 = 9;

/// Line `index` of the script that is generated from `number`, with so many employees, without its
/// end. The lines are counted from 0.
pub fn generate(
    alloc: Global,
    number: u64,
    count: u32,
    index: u64,
) -> Result<Option<Text>, AllocError>
    requires some { 1 ≤ count }
    requires few { count ≤ most_employees }
    ensures { IfOk result (λ line. line ≡ slice_get (generated number count) index) }
{
    if index < OPENING_LINES {
        return Ok(Some(opening_line(alloc, index)?));
    }
    let line = index - OPENING_LINES;
    let employees = lines_of_all(count);
    if line < employees {
        return Ok(Some(employee_line(alloc, number, count, line)?));
    }
    match closing_line(line - employees) {
        Some(line) => Ok(Some(Text::from_slice(alloc, line.as_bytes())?)),
        None => Ok(None),
    }
}

/// How many lines the script has that is generated with so many employees.
pub fn count_generated(count: u32) -> u64
    requires { 1 ≤ count }
    ensures { (number : ℕ) → result ≡ length (generated number count) }
{
    OPENING_LINES + lines_of_all(count) + CLOSING_LINES
}

// ---- the lines before and behind those of the employees

/// The text of a line.
fn text(alloc: Global, line: &str) -> Result<Text, AllocError>
    ensures { IfOk result (λ text. text ≡ line.now) }
{
    Text::from_slice(alloc, line.as_bytes())
}

fn opening_line(alloc: Global, line: u64) -> Result<Text, AllocError>
    requires { line < OPENING_LINES }
    ensures { IfOk result (λ text. slice_get opening_lines line ≡ Some text) }
{
    match line {
        0 => text(alloc, "segment s"),
        1 => text(alloc, "relation dept s no:int name:text20"),
        2 => text(alloc, "relation emp s no:int name:text20 pay:int"),
        3 => text(alloc, "unique dept_no dept no"),
        4 => text(alloc, "unique emp_no emp no"),
        5 => text(alloc, "image emp_pay emp pay"),
        6 => text(alloc, "link works dept emp"),
        7 => text(alloc, "begin 1"),
        18 => text(alloc, "end 1"),
        _ => department_line(alloc, line - 8),
    }
}

fn department_line(alloc: Global, number: u64) -> Result<Text, AllocError>
    ensures { IfOk result (λ text. text ≡ department_line number) }
{
    let line = format!(in alloc; "$d{number} = insert 1 dept {number} \"d{number}\"")?;
    text(alloc, line.as_str())
}

/// The line of a scan at the end, counted from the first of them.
fn closing_line(line: u64) -> Option<&'static str>
    ensures { option_map (λ text. text.now) result ≡ slice_get closing_lines line }
{
    match line {
        0 => Some("begin 1"),
        1 => Some("$s = open 1 image emp_pay"),
        2..=4 => Some("next 1 $s"),
        5 => Some("end 1"),
        6..=8 => Some("# end"),
        _ => None,
    }
}

// ---- the lines of the employees

/// How many lines the employees before this one have, none of whom is the last.
fn lines_before(employee: u32) -> u64
    ensures { (number count : ℕ) → employee < count
        → result ≡ length (first_employees number count employee) }
{
    let employee = u64::from(employee);
    let fifties = employee / 50 + employee.div_ceil(50);
    2 * employee + employee.div_ceil(8) + employee / 10 + 2 * fifties
}

/// How many lines all employees have, so many as they are. The last has the end of a transaction.
fn lines_of_all(count: u32) -> u64
    requires { 1 ≤ count }
    ensures all { (number : ℕ) → result ≡ length (first_employees number count count) }
    ensures bound { result < 2 ^ 40 }
{
    let employee = u64::from(count);
    let fifties = 2 * employee.div_ceil(50);
    2 * employee + employee.div_ceil(8) + employee / 10 + 2 * fifties
}

/// The employee who has a line, counted from the first line of the first.
fn employee_at(count: u32, line: u64) -> u32
    requires { 1 ≤ count }
    ensures within { result < count }
    ensures begun { (number : ℕ) → length (first_employees number count result) ≤ line }
    ensures ends { (number : ℕ) → line < length (first_employees number count count)
        → line < length (first_employees number count (result + 1)) }
{
    let mut employee = 0;
    let mut end = count;
    'halves: while end - employee > 1 {
        let middle = employee + (end - employee) / 2;
        if lines_before(middle) <= line {
            employee = middle;
        } else {
            end = middle;
        }
    }
    employee
}

fn count_begins(employee: u32) -> u64
    ensures { result ≡ length (begin_lines employee) }
{
    if employee % 50 == 0 { 2 } else { 0 }
}

fn count_updates(employee: u32) -> u64
    ensures { (state : ℕ) → result ≡ length (update_lines employee state) }
{
    if employee % 8 == 0 { 1 } else { 0 }
}

fn count_fetches(employee: u32) -> u64
    ensures { result ≡ length (fetch_lines employee) }
{
    if employee % 10 == 9 { 1 } else { 0 }
}

/// A line of the employees, counted from the first of them.
fn employee_line(alloc: Global, number: u64, count: u32, line: u64) -> Result<Text, AllocError>
    requires some { 1 ≤ count }
    requires within { line < length (first_employees number count count) }
    ensures { IfOk result (λ text.
        slice_get (first_employees number count count) line ≡ Some text) }
{
    let employee = employee_at(count, line);
    let place = line - lines_before(employee);
    let state = state_before(number, employee);
    line_of_employee(alloc, count, employee, state, place)
}

/// A line of an employee, counted from its first, by the state before its draws.
fn line_of_employee(
    alloc: Global,
    count: u32,
    employee: u32,
    state: u64,
    line: u64,
) -> Result<Text, AllocError>
    requires { line < length (employee_lines count employee state) }
    ensures { IfOk result (λ text.
        slice_get (employee_lines count employee state) line ≡ Some text) }
{
    let begins = count_begins(employee);
    if line < begins {
        return text(alloc, if line == 0 { "begin 1" } else { "begin 2" });
    }
    let pay = next_state(state);
    let department = next_state(pay);
    match line - begins {
        0 => insert_line(alloc, employee, drawn(1000, pay)),
        1 => connect_line(alloc, drawn(10, department)),
        behind => line_behind(alloc, employee, department, behind - 2),
    }
}

/// A line of an employee after those that insert and connect it, by the state after the draw of its
/// department.
fn line_behind(alloc: Global, employee: u32, department: u64, line: u64) -> Result<Text, AllocError>
    ensures { (count state : ℕ)
        → department ≡ department_state state
        → line < length (lines_behind count employee state)
        → IfOk result (λ text. slice_get (lines_behind count employee state) line ≡ Some text) }
{
    let updates = count_updates(employee);
    if line < updates {
        return update_line(alloc, employee, drawn(1000, next_state(department)));
    }
    let line = line - updates;
    let fetches = count_fetches(employee);
    if line < fetches {
        return text(alloc, "fetch 2 emp $e");
    }
    if line == fetches {
        text(alloc, "end 2")
    } else {
        text(alloc, "end 1")
    }
}

fn insert_line(alloc: Global, employee: u32, pay: u64) -> Result<Text, AllocError>
    ensures { IfOk result (λ text. text ≡ insert_line employee pay) }
{
    let line = format!(in alloc; "$e = insert 1 emp {employee} \"e{employee}\" {pay}")?;
    text(alloc, line.as_str())
}

fn connect_line(alloc: Global, department: u64) -> Result<Text, AllocError>
    ensures { IfOk result (λ text. text ≡ connect_line department) }
{
    let line = format!(in alloc; "connect 1 works $e $d{department} last")?;
    text(alloc, line.as_str())
}

fn update_line(alloc: Global, employee: u32, pay: u64) -> Result<Text, AllocError>
    ensures { IfOk result (λ text. text ≡ update_line employee pay) }
{
    let line = format!(in alloc; "update 1 emp $e {employee} \"e{employee}\" {pay}")?;
    text(alloc, line.as_str())
}
