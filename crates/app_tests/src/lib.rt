//! Tests of the files that the pooler reads, of their lines and of what shows of a secret (`ini_config`, `user_file`, `text_lines`,
//! `settings_check`); of the command line and `replay` (`pool_app`, `replay_run`); of what the console answers (`console_core`); and of
//! the lines of the log (`log_lines`).
#![tactic(auto)]

#[cfg(test)]
mod command_lines;
#[cfg(test)]
mod console;
#[cfg(test)]
mod console_books;
#[cfg(test)]
mod every_setting;
#[cfg(test)]
mod faults;
#[cfg(test)]
mod ini_faults;
#[cfg(test)]
mod ini_settings;
#[cfg(test)]
mod log_lines_told;
#[cfg(test)]
mod replies;
#[cfg(test)]
mod secrets;
#[cfg(test)]
mod settings_report;
#[cfg(test)]
mod trimmed_lines;
#[cfg(test)]
mod user_files;
