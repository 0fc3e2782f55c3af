//! Bodies of messages as the views read them.
use message_view::{
    AuthView, BindView, CloseView, DataRowView, DescribeView, ExecuteView, KeyView, NoteView,
    ParseView, PasswordView, QueryView, ReadyView, RowDescView, StartupView, Status, StatusView,
    TagView, Target, ViewError,
};

fn slice(bytes: &[u8]) -> &[u8] {
    bytes
}

#[test]
fn reads_pairs(rt: HostRuntime) {
    let Ok(view) = StartupView::read(b"user\0ann\0database\0\0\0") else {
        panic!(rt; "refused");
    };
    let mut pairs = view.pairs();
    for pair in [
        Some((slice(b"user"), slice(b"ann"))),
        Some((slice(b"database"), slice(b""))),
        None,
    ] {
        assert!(rt; pairs.next() == pair);
    }
}

#[test]
fn refuses_malformed_pairs(rt: HostRuntime) {
    for (body, fault) in [
        (slice(b"\0"), None),
        (slice(b""), Some(ViewError::NoZero)),
        (slice(b"user\0ann\0"), Some(ViewError::NoZero)),
        (slice(b"user\0ann"), Some(ViewError::NoZero)),
        (slice(b"user\0ann\0\0\0"), Some(ViewError::LeftOver)),
    ] {
        assert!(rt; StartupView::read(body).err() == fault);
    }
}

/// Portal "", statement "s", no formats, the values empty, null and `Bern`, no result formats.
const BIND: [u8; 25] = *b"\0s\0\0\0\0\x03\0\0\0\0\xff\xff\xff\xff\0\0\0\x04Bern\0\0";

#[test]
fn reads_a_bind(rt: HostRuntime) {
    let Ok(view) = BindView::read(&BIND) else {
        panic!(rt; "refused");
    };
    assert!(rt; (view.portal, view.statement) == (slice(b""), slice(b"s")));
    assert!(rt; (view.formats.len(), view.values().len(), view.results.len()) == (0, 3, 0));
    for (index, value) in [
        (0, Some(Some(slice(b"")))),
        (1, Some(None)),
        (2, Some(Some(slice(b"Bern")))),
        (3, None),
    ] {
        assert!(rt; view.value(index) == value);
    }
}

#[test]
fn reads_formats(rt: HostRuntime) {
    let Ok(view) = BindView::read(b"p\0\0\0\x02\0\x01\0\0\0\0\0\x01\0\x01") else {
        panic!(rt; "refused");
    };
    let mut formats = view.formats;
    let mut results = view.results;
    assert!(rt; (formats.next(), formats.next(), formats.next()) == (Some(1), Some(0), None));
    assert!(rt; results.next() == Some(1));
}

#[test]
fn refuses_a_malformed_bind(rt: HostRuntime) {
    // bytes left over, a count of 65535, a length of -2, and each shorter body
    let mut longer = [0; 26];
    longer[..25].copy_from_slice(&BIND);
    assert!(rt; BindView::read(&longer).err() == Some(ViewError::LeftOver));
    let mut many = BIND;
    many[5..7].copy_from_slice(b"\xff\xff");
    assert!(rt; BindView::read(&many).err() == Some(ViewError::TooShort));
    let mut below = BIND;
    below[15..19].copy_from_slice(b"\xff\xff\xff\xfe");
    assert!(rt; BindView::read(&below).err() == Some(ViewError::BadLength));
    for size in 0..25 {
        let fault = if size < 3 {
            ViewError::NoZero
        } else {
            ViewError::TooShort
        };
        assert!(rt; BindView::read(&BIND[..size]).err() == Some(fault));
    }
}

#[test]
fn reads_texts(rt: HostRuntime) {
    assert!(rt;
        matches!(
            QueryView::read(b"SHOW x\0"),
            Ok(QueryView { text: b"SHOW x" })
        )
    );
    assert!(rt;
        matches!(
            PasswordView::read(b"a\0"),
            Ok(PasswordView { password: b"a" })
        )
    );
    assert!(rt; matches!(TagView::read(b"SET\0"), Ok(TagView { tag: b"SET" })));
    for (body, fault) in [
        (slice(b"a"), ViewError::NoZero),
        (slice(b""), ViewError::NoZero),
        (slice(b"a\0b\0"), ViewError::LeftOver),
    ] {
        assert!(rt; QueryView::read(body).err() == Some(fault));
    }
}

#[test]
fn reads_a_parse(rt: HostRuntime) {
    let Ok(view) = ParseView::read(b"s\0SELECT 1\0\0\x02\0\0\0\x19\0\0\0\0") else {
        panic!(rt; "refused");
    };
    let mut oids = view.oids;
    assert!(rt; (view.name, view.query, oids.len()) == (slice(b"s"), slice(b"SELECT 1"), 2));
    assert!(rt; (oids.next(), oids.next(), oids.next()) == (Some(25), Some(0), None));
}

#[test]
fn refuses_a_cut_parse(rt: HostRuntime) {
    let cut = ParseView::read(b"s\0SELECT 1\0\0\x02\0\0\0\x19\0\0\0");
    assert!(rt; cut.err() == Some(ViewError::TooShort));
}

#[test]
fn reads_targets(rt: HostRuntime) {
    assert!(rt;
        matches!(
            DescribeView::read(b"Ss\0"),
            Ok(DescribeView {
                target: Target::Statement(b"s")
            })
        )
    );
    assert!(rt;
        matches!(
            CloseView::read(b"P\0"),
            Ok(CloseView {
                target: Target::Portal(b"")
            })
        )
    );
    for (body, fault) in [
        (slice(b""), ViewError::TooShort),
        (slice(b"Xs\0"), ViewError::TooShort),
        (slice(b"S"), ViewError::NoZero),
    ] {
        assert!(rt; CloseView::read(body).err() == Some(fault));
    }
}

#[test]
fn reads_an_execute(rt: HostRuntime) {
    let Ok(view) = ExecuteView::read(b"p\0\xff\xff\xff\xff") else {
        panic!(rt; "refused");
    };
    assert!(rt; (view.portal, view.limit) == (slice(b"p"), -1));
    let cut = ExecuteView::read(b"p\0\0\0\0");
    assert!(rt; cut.err() == Some(ViewError::TooShort));
}

#[test]
fn reads_an_authentication(rt: HostRuntime) {
    assert!(rt;
        matches!(
            AuthView::read(b"\0\0\0\x05\x01\x02\x03\x04"),
            Ok(AuthView {
                kind: 5,
                rest: b"\x01\x02\x03\x04"
            })
        )
    );
    assert!(rt; AuthView::read(b"\0\0\0").err() == Some(ViewError::TooShort));
}

#[test]
fn reads_a_key(rt: HostRuntime) {
    let key = KeyView { pid: 1, secret: 2 };
    assert!(rt; KeyView::read(b"\0\0\0\x01\0\0\0\x02") == Ok(key));
    let longer = KeyView::read(b"\0\0\0\x01\0\0\0\x02\0");
    assert!(rt; longer == Err(ViewError::LeftOver));
}

#[test]
fn reads_a_parameter_status(rt: HostRuntime) {
    let Ok(view) = StatusView::read(b"TimeZone\0UTC\0") else {
        panic!(rt; "refused");
    };
    assert!(rt; (view.name, view.setting) == (slice(b"TimeZone"), slice(b"UTC")));
    let cut = StatusView::read(b"TimeZone\0UTC");
    assert!(rt; cut.err() == Some(ViewError::NoZero));
}

#[test]
fn reads_a_ready_for_query(rt: HostRuntime) {
    for (body, read) in [
        (
            slice(b"I"),
            Ok(ReadyView {
                status: Status::Idle,
            }),
        ),
        (
            slice(b"T"),
            Ok(ReadyView {
                status: Status::InTransaction,
            }),
        ),
        (
            slice(b"E"),
            Ok(ReadyView {
                status: Status::Failed,
            }),
        ),
        (slice(b"X"), Err(ViewError::TooShort)),
        (slice(b""), Err(ViewError::TooShort)),
        (slice(b"II"), Err(ViewError::LeftOver)),
    ] {
        assert!(rt; ReadyView::read(body) == read);
    }
}

#[test]
fn reads_a_row(rt: HostRuntime) {
    let Ok(view) = DataRowView::read(b"\0\x02\0\0\0\x01x\xff\xff\xff\xff") else {
        panic!(rt; "refused");
    };
    assert!(rt; (view.value(0), view.value(1)) == (Some(Some(slice(b"x"))), Some(None)));
    assert!(rt; view.values().len() == 2);
}

#[test]
fn reads_a_description(rt: HostRuntime) {
    let Ok(view) = RowDescView::read(
        b"\0\x01a\0\0\0\0\0\0\0\0\0\0\x19\xff\xff\xff\xff\xff\xff\0\x01",
    ) else {
        panic!(rt; "refused");
    };
    assert!(rt; view.columns().len() == 1);
    let Some(column) = view.columns().next() else {
        panic!(rt; "no column");
    };
    let shown = (column.name, column.type_oid, column.size, column.format);
    assert!(rt; shown == (slice(b"a"), 25, -1, 1));
}

#[test]
fn refuses_a_cut_note(rt: HostRuntime) {
    assert!(rt; NoteView::read(b"Sx\0").err() == Some(ViewError::TooShort));
}
