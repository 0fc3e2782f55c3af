//! One client, its server, and what it is answered first.
ghost use Rattle.std.specs.Prelude.{◌≡◌, ◌<◌, ◌≤◌, IfOk};
ghost use Rattle.std.specs.Arc.{arc_value};
ghost use Rattle.frame_view.specs.declared.frames.TheConstants.{MAX_FRAME};
ghost use Rattle.link_start.specs.Starts.{IsLinkKey};

use bytes::BytesMut;
use credentials::Credential;
use memory_ends::memory_server::{MemoryServer, ServerAuth};
use memory_lease::alone::serve_alone;
use message_view::KeyWord;
use session_catalogue::Catalogue;
use session_values::text::Text;
use start_keys::StartKey;
use std::alloc::{AllocError, Global};
use std::sync::Arc;
use user_file::Secret;

const CATALOGUE: &[u8] =
    b"version\t16.0\ndatabase\tshop\ntable\tcity\tname\tcountry\nrow\tBern\tCH\n";

const CLIENT: KeyWord = KeyWord {
    pid: 1,
    secret: 2,
    salt: [0; 4],
};

const SERVER: KeyWord = KeyWord {
    pid: 7,
    secret: 8,
    salt: [0; 4],
};

/// What ann is told first on the database shop: nine parameters, her own key word, and ReadyForQuery.
pub(crate) const WELCOME: &[u8] =
    b"S\0\0\0\x16application_name\0\0S\0\0\0\x19client_encoding\0UTF8\0S\0\0\0\x17DateStyle\0ISO, MDY\0S\0\0\0\x19integer_datetimes\0on\0S\0\0\0\x1bIntervalStyle\0postgres\0S\0\0\0\x19server_encoding\0UTF8\0S\0\0\0\x18server_version\016.0\0S\0\0\0\x23standard_conforming_strings\0on\0S\0\0\0\x11TimeZone\0UTC\0K\0\0\0\x0c\0\0\0\x01\0\0\0\x02Z\0\0\0\x05I";

fn catalogue(alloc: Global) -> Result<Arc<Catalogue>, AllocError> {
    match Catalogue::read(alloc, CATALOGUE) {
        Ok(catalogue) => Ok(Arc::new(alloc, catalogue)?),
        Err(_) => Err(AllocError),
    }
}

/// The start key of ann on the database shop.
fn ann(alloc: Global) -> Result<Arc<StartKey>, AllocError>
    ensures { IfOk result (λ key. IsLinkKey (arc_value key)) }
{
    let key = StartKey {
        row: Text::from_slice(alloc, b"shop")?,
        host: None,
        port: 0,
        dbname: Text::from_slice(alloc, b"shop")?,
        user: Text::from_slice(alloc, b"ann")?,
        parameters: Vec::new(alloc),
    };
    Ok(Arc::new(alloc, key)?)
}

/// What ann is answered to these bytes over a server that dies after so many bytes, if it does.
pub(crate) fn served(
    alloc: Global,
    dies_after: Option<u64>,
    limit: u32,
    cut: usize,
    bytes: &[u8],
) -> Result<BytesMut, AllocError>
    requires cut { 0 < cut }
    requires low { 4 ≤ limit }
    requires high { limit ≤ MAX_FRAME }
{
    let catalogue = catalogue(alloc)?;
    catalogue.is_lawful();
    let server = MemoryServer::spared(
        alloc,
        catalogue,
        ServerAuth::Trust,
        SERVER,
        cut,
        dies_after,
    )?;
    // the server asks for nothing
    let unasked = Secret::Md5([0; 32]);
    let credential = Credential::new(alloc, &unasked, None, &CLIENT, 0);
    match serve_alone(
        alloc,
        server,
        ann(alloc)?,
        &credential,
        CLIENT,
        limit,
        cut,
        bytes,
    ) {
        Ok(answer) => Ok(answer),
        Err(_) => Err(AllocError),
    }
}
