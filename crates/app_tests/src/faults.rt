//! The lines of faults, and key seeds.
use pool_app::fault::{AppError, fault_line, status};
use pool_app::files::{read_all, seed_of, settings_of, users_of};
use session_catalogue::{CatalogueCause, CatalogueError};
use std::alloc::Global;
use std::process::Abort;
use std::test::Fail;

fn check<A: Abort>(rt: &A, alloc: Global, rows: &[(AppError<'_>, &str, u8)]) -> Result<(), Fail> {
    for (fault, text, want) in rows {
        let line = fault_line(alloc, fault)?;
        assert!(rt; line.as_str() == *text);
        assert!(rt; status(fault) == *want);
    }
    Ok(())
}

#[test]
fn faults_of_settings_and_users(rt: HostRuntime) -> Result<(), Fail> {
    let ini = match settings_of(rt.alloc(), b"[pgbouncer]\n\n\n\n\n\nlisten_port = x\n") {
        Ok(_) => AppError::Memory,
        Err(fault) => fault,
    };
    let users = match users_of(rt.alloc(), b"\"a\" \"b\"\n\"a\" \"c\"") {
        Ok(_) => AppError::Memory,
        Err(fault) => fault,
    };
    let rows = [
        (ini, "pgsess: C3 line 7", 1),
        (users, "pgsess: U2 line 2", 1),
    ];
    check(&rt, rt.alloc(), &rows)
}

fn catalogue_fault<'a>(cause: CatalogueCause, line: usize) -> AppError<'a> {
    AppError::Catalogue(CatalogueError { cause, line })
}

#[test]
fn faults_of_catalogues(rt: HostRuntime) -> Result<(), Fail> {
    let rows = [
        (
            catalogue_fault(CatalogueCause::NotALine, 1),
            "pgsess: K1 line 1",
            1,
        ),
        (
            catalogue_fault(CatalogueCause::NameTwice, 20),
            "pgsess: K2 line 20",
            1,
        ),
        (
            catalogue_fault(CatalogueCause::WrongNumberOfValues, 300),
            "pgsess: K3 line 300",
            1,
        ),
        (
            catalogue_fault(CatalogueCause::Memory, 4),
            "pgsess: K4 line 4",
            1,
        ),
    ];
    check(&rt, rt.alloc(), &rows)
}

#[test]
fn other_faults(rt: HostRuntime) -> Result<(), Fail> {
    let rows = [
        (AppError::File("a b.ini"), "pgsess: file a b.ini", 1),
        (AppError::Stdin, "pgsess: stdin", 1),
        (AppError::Stdout, "pgsess: stdout", 1),
        (AppError::Memory, "pgsess: memory", 1),
        (AppError::Port(5432), "pgsess: port 5432", 3),
        (AppError::NoUserFile, "pgsess: no user file", 2),
        (
            AppError::AuthFile(String::from_str(rt.alloc(), "a b.txt")?),
            "pgsess: file a b.txt",
            1,
        ),
    ];
    check(&rt, rt.alloc(), &rows)
}

#[test]
fn seeds_and_whole_reads(rt: HostRuntime) -> Result<(), Fail> {
    assert!(rt; seed_of("k", &[7; 32]) == Ok([7; 32]));
    assert!(rt; seed_of("k", &[7; 31]) == Err(AppError::File("k")));
    assert!(rt; seed_of("k", &[7; 33]) == Err(AppError::File("k")));
    let bytes = b"abcd";
    match read_all(rt.alloc(), bytes.as_slice(), 4) {
        Ok(all) => assert!(rt; all.as_slice() == bytes.as_slice()),
        Err(_) => assert!(rt; false),
    }
    assert!(rt; read_all(rt.alloc(), bytes.as_slice(), 3).is_err());
    Ok(())
}
