//! The table of the settings.
ghost use Rattle.std.specs.Prelude.{◌≡◌, ◌++◌, decimal, map, IfOk, OnOk};
ghost use Rattle.console_core.specs.Config as spec;
ghost use Rattle.console_core.specs.Views.{setting_view, value_view};

use crate::cells::Cells;
use ini_config::{AuthType, ConsoleStyle, Names, Settings};
use itoa::Buffer;
use std::alloc::{AllocError, Global};
use text_lines::Text;

/// What a setting is set to.
#[derive(Clone, Copy, Drop)]
enum Value<'a> {
    Fixed(&'static str),
    Auth(AuthType),
    Number(u32),
    Flag(bool),
    Text(&'a [u8]),
    Mode(u32),
    Names(&'a Names),
    Style(ConsoleStyle),
}

/// A key of the settings file, and its value.
type Setting<'a> = (&'static str, Value<'a>);

fn auth_name(auth_type: AuthType) -> &'static [u8]
    ensures { result.now ≡ spec.auth_name auth_type }
{
    match auth_type {
        AuthType::Trust => b"trust",
        AuthType::Plain => b"plain",
        AuthType::Md5 => b"md5",
        AuthType::ScramSha256 => b"scram-sha-256",
    }
}

fn style_name(style: ConsoleStyle) -> &'static [u8]
    ensures { result.now ≡ spec.style_name style }
{
    match style {
        ConsoleStyle::Own => b"pgsess",
        ConsoleStyle::PgBouncer => b"pgbouncer",
    }
}

/// The settings.
fn settings_of(s: &Settings) -> [Setting<'_>; 33]
    ensures { map setting_view result ≡ spec.config s.now }
{
    [
        ("listen_addr", Value::Names(&s.listen_addr)),
        ("listen_port", Value::Number(s.listen_port as u32)),
        ("auth_type", Value::Auth(s.auth_type)),
        ("admin_users", Value::Names(&s.admin_users)),
        ("pool_mode", Value::Fixed("session")),
        ("server_reset_query", Value::Fixed("DISCARD ALL")),
        ("max_client_conn", Value::Number(s.max_client_conn)),
        ("default_pool_size", Value::Number(s.default_pool_size)),
        ("max_links", Value::Number(s.max_links)),
        ("query_wait_timeout", Value::Number(s.query_wait_timeout)),
        ("server_lifetime", Value::Number(s.server_lifetime)),
        ("server_idle_timeout", Value::Number(s.server_idle_timeout)),
        ("max_packet_size", Value::Number(s.max_packet_size)),
        (
            "ignore_startup_parameters",
            Value::Names(&s.ignore_startup_parameters),
        ),
        (
            "track_extra_parameters",
            Value::Names(&s.track_extra_parameters),
        ),
        ("untrack_parameters", Value::Names(&s.untrack_parameters)),
        ("unix_socket_dir", Value::Text(s.unix_socket_dir.as_bytes())),
        ("unix_socket_mode", Value::Mode(s.unix_socket_mode)),
        (
            "unix_socket_group",
            Value::Text(s.unix_socket_group.as_bytes()),
        ),
        ("peer_id", Value::Number(s.peer_id)),
        ("tcp_keepalive", Value::Flag(s.tcp_keepalive)),
        ("tcp_keepidle", Value::Number(s.tcp_keepidle)),
        ("tcp_keepintvl", Value::Number(s.tcp_keepintvl)),
        ("tcp_keepcnt", Value::Number(s.tcp_keepcnt)),
        ("tcp_user_timeout", Value::Number(s.tcp_user_timeout)),
        (
            "server_connect_timeout",
            Value::Number(s.server_connect_timeout),
        ),
        (
            "client_login_timeout",
            Value::Number(s.client_login_timeout),
        ),
        ("stats_users", Value::Names(&s.stats_users)),
        ("stats_period", Value::Number(s.stats_period)),
        ("log_stats", Value::Flag(s.log_stats)),
        ("metrics_addr", Value::Names(&s.metrics_addr)),
        ("metrics_port", Value::Number(s.metrics_port as u32)),
        ("console_style", Value::Style(s.console_style)),
    ]
}

fn put_number(text: &mut Vec<u8>, n: u32) -> Result<(), AllocError>
    ensures { OnOk result (text.new.items ≡ text.old.items ++ decimal n) }
{
    let mut digits = Buffer::new();
    text.extend_from_slice(digits.format(n).as_bytes())
}

fn flag(is_on: bool) -> &'static [u8]
    ensures { result.now ≡ spec.flag is_on }
{
    if is_on { b"1" } else { b"0" }
}

/// An octal digit.
fn octal_digit(n: u32) -> u8
    ensures { result ≡ spec.octal_digit n }
{
    48 + (n % 8) as u8
}

/// Nine bits as a zero and three octal digits.
fn put_mode(text: &mut Vec<u8>, mode: u32) -> Result<(), AllocError>
    ensures { OnOk result (text.new.items ≡ text.old.items ++ spec.octal mode) }
{
    text.extend_from_slice(&[
        b'0',
        octal_digit(mode / 64),
        octal_digit(mode / 8),
        octal_digit(mode),
    ])
}

fn put_behind_comma(text: &mut Vec<u8>, name: &[u8]) -> Result<(), AllocError>
    ensures { OnOk result (text.new.items ≡ text.old.items ++ spec.behind_comma name.now) }
{
    text.push(b',')?;
    text.extend_from_slice(name)
}

/// Names with commas between.
fn put_joined(text: &mut Vec<u8>, names: &[Text]) -> Result<(), AllocError>
    ensures { OnOk result (text.new.items ≡ text.old.items ++ spec.joined names.now) }
{
    let [first, others @ ..] = names else {
        return Ok(());
    };
    text.extend_from_slice(first.as_bytes())?;
    for name in others {
        put_behind_comma(text, name.as_bytes())?;
    }
    Ok(())
}

fn put_value(text: &mut Vec<u8>, value: Value<'_>) -> Result<(), AllocError>
    ensures { OnOk result (text.new.items ≡ text.old.items ++ value_view value.entry) }
{
    match value {
        Value::Fixed(fixed) => text.extend_from_slice(fixed.as_bytes()),
        Value::Auth(auth_type) => text.extend_from_slice(auth_name(auth_type)),
        Value::Number(n) => put_number(text, n),
        Value::Flag(is_on) => text.extend_from_slice(flag(is_on)),
        Value::Text(bytes) => text.extend_from_slice(bytes),
        Value::Mode(mode) => put_mode(text, mode),
        Value::Names(names) => put_joined(text, names.as_slice()),
        Value::Style(style) => text.extend_from_slice(style_name(style)),
    }
}

fn row(alloc: Global, setting: Setting<'_>) -> Result<Cells, AllocError>
    ensures { IfOk result (λ c. c ≡ setting_view setting.entry) }
{
    let (key, value) = setting;
    let mut text = Vec::new(alloc);
    put_value(&mut text, value)?;
    Cells::new(alloc)?
        .with(alloc, key.as_bytes())?
        .with(alloc, &text)
}

fn rows(alloc: Global, settings: &[Setting<'_>]) -> Result<Vec<Cells>, AllocError>
    ensures { IfOk result (λ v. v.items ≡ map setting_view settings.now) }
{
    let mut rows = Vec::with_capacity(alloc, settings.len())?;
    for setting in settings {
        rows.push(row(alloc, *setting)?)?;
    }
    Ok(rows)
}

/// A row for each setting: its key and its value. The only error is that memory was refused.
pub fn config(alloc: Global, settings: &Settings) -> Result<Vec<Cells>, AllocError>
    ensures { IfOk result (λ v. v.items ≡ spec.config settings.now) }
{
    let settings = settings_of(settings);
    rows(alloc, &settings)
}
