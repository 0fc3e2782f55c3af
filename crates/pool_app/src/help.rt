//! What stands at the end of each subcommand's help: an example, and what the lines on standard error mean.

pub(crate) const REPLAY: &str = "Example: pgsess replay < client.bin > replies.bin

A fault is told in one line on standard error, and the status is 1:
  pgsess: stdin   standard input can't be read, or is longer than 16777216 bytes
  pgsess: stdout  standard output is closed or full
  pgsess: memory  no memory was left";

pub(crate) const SERVE: &str = "Example: pgsess serve --ini pgsess.ini --users users.txt

A fault is told in one line on standard error, as `pgsess: C3 line 7`, and the status is 1.
  file F  the file F can't be read or is too long, or the key seed hasn't 32 bytes
  memory  no memory was left, elsewhere than in a file's text
  port N  the port N can't be had; then the status is 3
  totals  after SHUTDOWN, a worker's count is missing
  no user file  neither --users nor auth_file names one; then the status is 2
Of the settings:
  C1  a header of an unknown section, or a line in [users] or [peers]
  C2  an unknown key in [pgbouncer]
  C3  a bad value, or a database row that can't be read or isn't served
  C4  a key or a database row for the second time
  C5  pool_mode isn't session
  C6  server_reset_query isn't DISCARD ALL
  C7  not a line: neither a header nor `key = value`, or a key before any section
  C8  no memory was left for the line
Of the users:
  U1  bad quoting, or an empty name
  U2  a name for the second time
  U3  no memory was left for the line";

pub(crate) const CHECK: &str = "Example: pgsess check --ini pgsess.ini --users users.txt

Each fault is told in a line on standard output: the file, the line, what stands there, the code of `pgsess serve --help`, and why.
Then what is read over, and what differs from PgBouncer. The status is 0 where there is no fault, else 1. No port is opened, and no
server is reached. Nothing is shown of a password, and of a user's line nothing but its name.";

pub(crate) const STUB: &str = "Example: pgsess stub --port 5432 --catalogue catalogue.tsv

A fault is told in one line on standard error, as `pgsess: K1 line 7`, and the status is 1.
  file F  the file F can't be read or is longer than 16777216 bytes
  memory  no memory was left, elsewhere than in a file's text
  port N  the port N can't be had; then the status is 3
Of the catalogue:
  K1  not a line of a catalogue, or one that is missing or out of place
  K2  the name of a database, a table or a column for the second time
  K3  a row with more or fewer values than its table has columns
  K4  no memory was left for the line";
