//! What is asked, and the answers.
use bstr::ByteSlice;
use hex::FromHexError;
use itoa::Buffer;
use sasl_prep::prepared;
use scram::client_messages::{
    First, Last, MAX_JOINT_NONCE, MAX_NONCE, first_message, last_message, last_unproved,
};
use scram::keys::salted;
use scram::server_messages::{Challenge, challenge_message, final_message, nonce};
use scram::{ClientKeys, MAX_SALT, Salt, ServerKeys, Verifier, hmac, initial_response};
use std::alloc::{AllocError, Global};

/// The longest header that is asked of.
const MAX_HEADER: usize = 64;

/// The bytes of a text in hex; none where it isn't hex.
fn bytes_in(alloc: Global, text: &[u8]) -> Result<Vec<u8>, AllocError> {
    match hex::decode(alloc, text) {
        Ok(bytes) => Ok(bytes),
        Err(FromHexError::OutOfMemory) => Err(AllocError),
        Err(_) => Ok(Vec::new(alloc)),
    }
}

/// What is asked, and the bytes that it is asked of.
#[derive(Drop)]
struct Question<'a> {
    word: &'a [u8],
    values: Vec<Vec<u8>>,
}

impl<'a> Question<'a> {
    /// The question of a line.
    fn read(alloc: Global, line: &'a [u8]) -> Result<Question<'a>, AllocError> {
        let mut words = line.split_str(b" ");
        let word = words.next().unwrap_or(b"");
        let mut values = Vec::new(alloc);
        for text in words {
            values.push(bytes_in(alloc, text)?)?;
        }
        Ok(Question { word, values })
    }

    /// The value at this place, of no bytes if it is missing.
    fn value(&self, place: usize) -> &[u8] {
        match self.values.get(place) {
            Some(value) => value.as_slice(),
            None => b"",
        }
    }

    /// The number that a value's last bytes spell.
    fn number(&self, place: usize) -> u32 {
        let mut number: u32 = 0;
        for byte in self.value(place) {
            number = number.wrapping_mul(256).wrapping_add(u32::from(*byte));
        }
        number
    }

    /// A value as a key.
    fn key(&self, place: usize) -> [u8; 32] {
        let mut key = [0u8; 32];
        let value = self.value(place);
        if value.len() == 32 {
            key.copy_from_slice(value);
        }
        key
    }
}

/// The answers so far, of which the last is being written.
#[derive(Drop)]
struct Answers {
    alloc: Global,
    out: Vec<u8>,
}

impl Answers {
    /// Adds bytes in hex.
    fn bytes(&mut self, bytes: &[u8]) -> Result<(), AllocError> {
        let text = hex::encode(self.alloc, bytes)?;
        self.out.extend_from_slice(b" ")?;
        self.out.extend_from_slice(text.as_bytes())
    }

    fn number(&mut self, number: u32) -> Result<(), AllocError> {
        let mut digits = Buffer::new();
        self.out.extend_from_slice(b" ")?;
        self.out.extend_from_slice(digits.format(number).as_bytes())
    }

    /// Adds that a text isn't read.
    fn none(&mut self) -> Result<(), AllocError> {
        self.out.extend_from_slice(b" none")
    }

    fn keys(&mut self, keys: &ServerKeys) -> Result<(), AllocError> {
        self.bytes(&keys.stored)?;
        self.bytes(&keys.server)
    }

    fn verifier(&mut self, text: &[u8]) -> Result<(), AllocError> {
        match Verifier::read(self.alloc, text)? {
            Some(verifier) => {
                self.number(verifier.rounds)?;
                self.bytes(verifier.salt.as_bytes())?;
                self.keys(&verifier.keys)
            }
            None => self.none(),
        }
    }

    fn first(&mut self, text: &[u8]) -> Result<(), AllocError> {
        match First::read(text) {
            Some(message) => {
                self.bytes(message.header)?;
                self.bytes(message.bare)?;
                self.bytes(message.nonce)
            }
            None => self.none(),
        }
    }

    fn challenge(&mut self, own: &[u8], text: &[u8]) -> Result<(), AllocError> {
        match Challenge::read(self.alloc, own, text)? {
            Some(message) => {
                self.bytes(message.nonce)?;
                self.bytes(message.salt.as_bytes())?;
                self.number(message.rounds)
            }
            None => self.none(),
        }
    }

    fn last(&mut self, header: &[u8], nonce: &[u8], text: &[u8]) -> Result<(), AllocError> {
        if header.len() > MAX_HEADER || nonce.len() > MAX_JOINT_NONCE {
            return self.none();
        }
        match Last::read(self.alloc, header, nonce, text)? {
            Some(message) => {
                self.bytes(message.unproved)?;
                self.bytes(&message.proof)
            }
            None => self.none(),
        }
    }

    fn initial(&mut self, body: &[u8]) -> Result<(), AllocError> {
        match initial_response(body) {
            Some(text) => self.bytes(text),
            None => self.none(),
        }
    }

    /// An exchange by both roles: of a password, a salt, rounds, the client's nonce and that of both. The four messages, and the client
    /// key that the server finds.
    fn exchange(&mut self, question: &Question<'_>) -> Result<(), AllocError> {
        let (salt, own, joint) = (question.value(1), question.value(3), question.value(4));
        if salt.len() > MAX_SALT || own.len() > MAX_NONCE || joint.len() > MAX_JOINT_NONCE {
            return self.none();
        }
        if own.len() > joint.len() {
            return self.none();
        }
        let rounds = question.number(2);
        let salted = salted(question.value(0), salt, rounds);
        let first = first_message(own);
        let challenge = challenge_message(own, &joint[own.len()..], &Salt::new(salt), rounds);
        self.bytes(first.as_bytes())?;
        self.bytes(challenge.as_bytes())?;
        self.proved(&salted, first.as_bytes(), challenge.as_bytes(), joint)
    }

    /// The rest of it behind the first message and the challenge.
    fn proved(
        &mut self,
        salted: &[u8; 32],
        first: &[u8],
        challenge: &[u8],
        joint: &[u8],
    ) -> Result<(), AllocError> {
        if first.len() < 3 || joint.len() > MAX_JOINT_NONCE {
            return self.none();
        }
        let bare = &first[3..];
        let unproved = last_unproved(joint);
        let proof = ClientKeys::of(salted).proof(bare, challenge, unproved.as_bytes());
        let keys = ServerKeys::of(salted);
        let told = final_message(&keys.server, bare, challenge, unproved.as_bytes());
        self.bytes(last_message(joint, &proof).as_bytes())?;
        self.bytes(told.as_bytes())?;
        match keys.revealed(bare, challenge, unproved.as_bytes(), &proof) {
            Some(key) => self.bytes(&key),
            None => self.none(),
        }
    }

    fn of(&mut self, question: &Question<'_>) -> Result<(), AllocError> {
        let (first, second) = (question.value(0), question.value(1));
        match question.word {
            b"hmac" => self.bytes(&hmac(first, second)),
            b"salted" => self.bytes(&salted(first, second, question.number(2))),
            b"keys" => self.keys(&ServerKeys::of(&question.key(0))),
            b"verifier" => self.verifier(first),
            b"first" => self.first(first),
            b"challenge" => self.challenge(first, second),
            b"last" => self.last(first, second, question.value(2)),
            b"initial" => self.initial(first),
            b"nonce" => self.bytes(&nonce(first)),
            b"prepared" => self.bytes(prepared(self.alloc, first)?.as_slice()),
            b"exchange" => self.exchange(question),
            _ => self.out.extend_from_slice(b" ?"),
        }
    }
}

/// The answers to these lines.
pub fn answers_of(alloc: Global, lines: &[u8]) -> Result<Vec<u8>, AllocError> {
    let mut answers = Answers {
        alloc,
        out: Vec::new(alloc),
    };
    for line in lines.lines() {
        let question = Question::read(alloc, line)?;
        answers.of(&question)?;
        answers.out.extend_from_slice(b"\n")?;
    }
    Ok(answers.out)
}
