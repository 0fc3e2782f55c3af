//! Messages as the writers spell them. What a writer answers is let go: the bytes show whether it wrote.
ghost use Rattle.std.specs.Prelude.{◌≤◌, IsOk};

use bytes::BytesMut;
use message_view::{
    Column, Severity, Status, put_authentication_ok, put_backend_key_data, put_bind_complete,
    put_cancel_request, put_cleartext_password, put_close_complete, put_command_complete,
    put_data_row, put_empty_query_response, put_error_response, put_md5_password, put_message,
    put_no_data, put_notice_response, put_parameter_description, put_parameter_status,
    put_parse_complete, put_password_message, put_portal_suspended, put_query, put_ready_for_query,
    put_row_description, put_startup_message,
};
use std::alloc::AllocError;

fn slice(bytes: &[u8]) -> &[u8] {
    bytes
}

#[test]
fn writes_the_login(rt: HostRuntime) {
    let mut out = BytesMut::new(rt.alloc());
    let _ = put_authentication_ok(&mut out);
    let _ = put_backend_key_data(&mut out, 1, 2);
    let _ = put_ready_for_query(&mut out, Status::Idle);
    let _ = put_cleartext_password(&mut out);
    let _ = put_md5_password(&mut out, [1, 2, 3, 4]);
    assert!(rt;
        out.as_slice()
            == slice(
                b"R\0\0\0\x08\0\0\0\0K\0\0\0\x0c\0\0\0\x01\0\0\0\x02Z\0\0\0\x05IR\0\0\0\x08\0\0\0\x03R\0\0\0\x0c\0\0\0\x05\x01\x02\x03\x04"
            )
    );
}

/// In reserved room a welcome can't fail: each writer tells what it leaves.
fn put_short_welcome(out: &mut BytesMut) -> Result<(), AllocError>
    requires { 37 ≤ out.old.spare }
    ensures { IsOk result }
{
    put_parameter_status(out, b"TimeZone", b"UTC")?;
    put_backend_key_data(out, 1, 2)?;
    put_ready_for_query(out, Status::Idle)
}

#[test]
fn writes_each_status(rt: HostRuntime) {
    for (status, byte) in [
        (Status::Idle, b'I'),
        (Status::InTransaction, b'T'),
        (Status::Failed, b'E'),
    ] {
        let mut out = BytesMut::new(rt.alloc());
        let _ = put_ready_for_query(&mut out, status);
        assert!(rt; out.as_slice() == slice(&[b'Z', 0, 0, 0, 5, byte]));
    }
}

#[test]
fn writes_a_row(rt: HostRuntime) {
    let mut out = BytesMut::new(rt.alloc());
    let columns = [Column {
        name: b"application_name",
        format: 0,
    }];
    let _ = put_row_description(&mut out, &columns);
    let _ = put_data_row(&mut out, &[Some(b"")]);
    let _ = put_data_row(&mut out, &[None, Some(b"Bern")]);
    let _ = put_command_complete(&mut out, b"SHOW");
    assert!(rt;
        out.as_slice()
            == slice(
                b"T\0\0\0\x29\0\x01application_name\0\0\0\0\0\0\0\0\0\0\x19\xff\xff\xff\xff\xff\xff\0\0D\0\0\0\x0a\0\x01\0\0\0\0D\0\0\0\x12\0\x02\xff\xff\xff\xff\0\0\0\x04BernC\0\0\0\x09SHOW\0"
            )
    );
}

#[test]
fn writes_what_has_no_parts(rt: HostRuntime) {
    let mut out = BytesMut::new(rt.alloc());
    let _ = put_parse_complete(&mut out);
    let _ = put_bind_complete(&mut out);
    let _ = put_close_complete(&mut out);
    let _ = put_no_data(&mut out);
    let _ = put_portal_suspended(&mut out);
    let _ = put_empty_query_response(&mut out);
    assert!(rt;
        out.as_slice()
            == slice(b"1\0\0\0\x042\0\0\0\x043\0\0\0\x04n\0\0\0\x04s\0\0\0\x04I\0\0\0\x04")
    );
}

#[test]
fn writes_errors(rt: HostRuntime) {
    let mut out = BytesMut::new(rt.alloc());
    let _ = put_error_response(&mut out, Severity::Error, b"42601", b"syntax error");
    let _ = put_error_response(&mut out, Severity::Fatal, b"53300", b"full");
    let _ = put_notice_response(&mut out, Severity::Warning, b"25P01", b"no block");
    assert!(rt;
        out.as_slice()
            == slice(
                b"E\0\0\0\x28SERROR\0VERROR\0C42601\0Msyntax error\0\0E\0\0\0\x20SFATAL\0VFATAL\0C53300\0Mfull\0\0N\0\0\0\x28SWARNING\0VWARNING\0C25P01\0Mno block\0\0"
            )
    );
}

#[test]
fn writes_reports(rt: HostRuntime) {
    let mut out = BytesMut::new(rt.alloc());
    let _ = put_parameter_status(&mut out, b"TimeZone", b"UTC");
    let _ = put_parameter_description(&mut out, &[25, 0]);
    let _ = put_message(&mut out, b'Q', &[b"SHOW ", b"x\0"]);
    assert!(rt;
        out.as_slice()
            == slice(
                b"S\0\0\0\x11TimeZone\0UTC\0t\0\0\0\x0e\0\x02\0\0\0\x19\0\0\0\0Q\0\0\0\x0bSHOW x\0"
            )
    );
}

#[test]
fn writes_what_a_client_sends(rt: HostRuntime) {
    let mut out = BytesMut::new(rt.alloc());
    let _ = put_startup_message(&mut out, &[(b"user", b"ann"), (b"database", b"shop")]);
    let _ = put_query(&mut out, b"");
    let _ = put_password_message(&mut out, b"a");
    let _ = put_cancel_request(&mut out, 1, 2);
    assert!(rt;
        out.as_slice()
            == slice(
                b"\0\0\0\x20\0\x03\0\0user\0ann\0database\0shop\0\0Q\0\0\0\x05\0p\0\0\0\x06a\0\0\0\0\x10\x04\xd2\x16\x2e\0\0\0\x01\0\0\0\x02"
            )
    );
}
