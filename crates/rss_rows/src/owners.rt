// Whose call a line is.
use rss_line::owner;
use std::test::Fail;

/// Lines, with the transaction whose call each is under some variables.
static OWNERS: [(&[u8], Option<u32>); 33] = [
    (b"begin 1", Some(1)),
    (b"  $a = save 7 ", Some(7)),
    (b"$a=save 7", None),
    (b"restore 2 $s", Some(2)),
    (b"restore 2 0.1", None),
    (b"end 4294967295", Some(4_294_967_295)),
    (b"end 4294967296", None),
    (b"abort 0", None),
    (b"abort 01", None),
    (b"insert 3 r", Some(3)),
    (b"insert 3 r 1 \"a \"\"b\" undefined", Some(3)),
    (b"insert 3 r \"a", None),
    (b"insert 3 r \"a\"b", None),
    (b"insert 3 r $a", None),
    (b"fetch 4 r $a", Some(4)),
    (b"fetch 4 r 0.128", None),
    (b"update 5 r 0.0 -1", Some(5)),
    (b"delete 6 r 65535.127", Some(6)),
    (b"connect 7 l $a $b after $c", Some(7)),
    (b"connect 7 l 0.0 first", Some(7)),
    (b"connect 7 l 0.0 before 0.1", None),
    (b"disconnect 8 l $a", Some(8)),
    (b"parent 9 l $a", Some(9)),
    (b"open 10 image i from 1 \"x\"", Some(10)),
    (b"open 10 link l $p", Some(10)),
    (b"open 10 relation r 1", None),
    (b"next 11 $s", Some(11)),
    (b"close 12 7", Some(12)),
    (b"lock 13 segment s exclusive", Some(13)),
    (b"lock 13 tuple r shared", None),
    (b"checkpoint", None),
    (b"segment s", None),
    (b"# begin 1", None),
];

#[test]
fn lines_have_owners() -> Result<(), Fail> {
    for (line, wanted) in &OWNERS {
        if owner(line) != *wanted {
            return Err("a line has another owner".into());
        }
    }
    Ok(())
}
