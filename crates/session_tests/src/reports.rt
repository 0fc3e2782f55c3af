//! What links' servers report of their parameters.
use message_view::StatusView;
use param_track::{MAX_NAMES, ReportError, Reported};
use std::alloc::Global;
use std::test::Fail;

type Pair = (&'static [u8], &'static [u8]);

fn started(alloc: Global, pairs: &[Pair]) -> Result<Reported, Fail> {
    let mut reported = Reported::new(alloc);
    for (name, setting) in pairs {
        reported.add(alloc, &StatusView { name, setting })?;
    }
    Ok(reported)
}

fn are_reports(reported: &Reported, wanted: &[Pair]) -> bool {
    if reported.reports().len() != wanted.len() {
        return false;
    }
    for (report, (name, setting)) in reported.reports().iter().zip(wanted.iter()) {
        if report.name() != *name || report.value() != *setting {
            return false;
        }
    }
    true
}

/// A report after such a start: of this name and value, whether the start reported the name, and whether all is then as at the start.
type Told = (&'static [u8], &'static [u8], bool, bool);

/// Whether each report after a start is told so, and the start's own reports stay these.
///
/// The reports are held here alone: a test that held them would have to show how they are dropped on each of its ways out.
fn are_told(alloc: Global, start: &[Pair], told: &[Told], wanted: &[Pair]) -> Result<bool, Fail> {
    let mut reported = started(alloc, start)?;
    if !reported.at_start() || !are_reports(&reported, wanted) {
        return Ok(false);
    }
    for &(name, setting, is_known, is_as_then) in told {
        if reported.apply(&StatusView { name, setting }) != is_known
            || reported.at_start() != is_as_then
        {
            return Ok(false);
        }
    }
    Ok(are_reports(&reported, wanted))
}

const START: [Pair; 3] = [
    (b"application_name", b""),
    (b"TimeZone", b"UTC"),
    (b"DateStyle", b"ISO, MDY"),
];

#[test]
fn a_value_is_told_and_told_back(rt: HostRuntime) -> Result<(), Fail> {
    let told: [Told; 3] = [
        (b"TimeZone", b"CET", true, false),
        (b"TimeZone", b"utc", true, false),
        (b"TimeZone", b"UTC", true, true),
    ];
    assert!(rt; are_told(rt.alloc(), &START, &told, &START)?);
    Ok(())
}

#[test]
fn each_name_counts(rt: HostRuntime) -> Result<(), Fail> {
    let told: [Told; 4] = [
        (b"application_name", b"a", true, false),
        (b"DateStyle", b"SQL, DMY", true, false),
        (b"DateStyle", b"ISO, MDY", true, false),
        (b"application_name", b"", true, true),
    ];
    assert!(rt; are_told(rt.alloc(), &START, &told, &START)?);
    Ok(())
}

/// Names are compared byte for byte.
#[test]
fn unknown_names(rt: HostRuntime) -> Result<(), Fail> {
    let told: [Told; 4] = [
        (b"search_path", b"x", false, true),
        (b"timezone", b"CET", false, true),
        (b"TimeZone", b"CET", true, false),
        (b"", b"", false, false),
    ];
    assert!(rt; are_told(rt.alloc(), &START, &told, &START)?);
    Ok(())
}

#[test]
fn a_name_twice_in_a_start(rt: HostRuntime) -> Result<(), Fail> {
    let start: [Pair; 3] = [(b"a", b"1"), (b"b", b"2"), (b"a", b"3")];
    let wanted: [Pair; 2] = [(b"a", b"3"), (b"b", b"2")];
    let told: [Told; 2] = [(b"a", b"1", true, false), (b"a", b"3", true, true)];
    assert!(rt; are_told(rt.alloc(), &start, &told, &wanted)?);
    Ok(())
}

#[test]
fn sixty_four_names(rt: HostRuntime) -> Result<(), Fail> {
    let mut reported = Reported::new(rt.alloc());
    for letter in 0..64u8 {
        let name = [letter];
        reported.add(
            rt.alloc(),
            &StatusView {
                name: &name,
                setting: b"",
            },
        )?;
    }
    let other = StatusView {
        name: b"other",
        setting: b"",
    };
    assert!(rt; reported.add(rt.alloc(), &other).err() == Some(ReportError::TooMany));
    let known = StatusView {
        name: b"0",
        setting: b"1",
    };
    assert!(rt; reported.add(rt.alloc(), &known).err().is_none());
    assert!(rt; reported.reports().len() == MAX_NAMES);
    Ok(())
}
