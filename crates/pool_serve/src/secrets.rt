//! Secrets by which nobody can log in.
ghost use Rattle.std.specs.Prelude.{◌≡◌, IfSome};
ghost use Rattle.pool_serve.specs.Secrets as spec;

use ini_config::AuthType;
use log_lines::notes::LoginFailure;
use scram::server_messages::MAX_ROUNDS;
use user_file::Secret;

/// Why nobody can log in by this secret who is asked so, whatever is given: it is no secret, or an MD5 digest where SCRAM is asked for, or a
/// verifier of more than 1,000,000 rounds where the password is. None where somebody can, and where nothing is asked.
pub fn uselessness(auth_type: AuthType, secret: &Secret) -> Option<LoginFailure>
    ensures value { result ≡ spec.uselessness auth_type secret.now }
    ensures nobody { IfSome result (λ w. spec.AcceptsNothing auth_type secret.now) }
{
    match (secret, auth_type) {
        (_, AuthType::Trust) => None,
        (Secret::Unusable, _) => Some(LoginFailure::NoSecret),
        (Secret::Md5(_), AuthType::ScramSha256) => Some(LoginFailure::Digest),
        (Secret::Scram(verifier), AuthType::Plain) => {
            if verifier.rounds <= MAX_ROUNDS {
                return None;
            }
            Some(LoginFailure::Rounds)
        }
        (Secret::Plain(_) | Secret::Md5(_) | Secret::Scram(_), _) => None,
    }
}
