//! The forms of lines and of commands.

ghost use Rattle.std.specs.Prelude.{◌≡◌, option_copied};
ghost use Rattle.ep_script.specs.Forms.{form_with};

use crate::operand::Operand;
use crate::standing::Standing;
use crate::words::is_word;

/// The form of a line, or of a command: its first word, what stands behind it, and where it may stand.
#[derive(Drop)]
pub struct Form {
    pub word: &'static [u8],
    pub operands: &'static [Operand],
    pub standing: Standing,
    /// All of it in words; where a command follows, the words before it.
    pub text: &'static [u8],
}

/// The lines of scripts.
pub const LINES: [Form; 15] = [
    Form {
        word: b"replicas",
        operands: &[Operand::Size],
        standing: Standing::First,
        text: b"replicas N",
    },
    Form {
        word: b"generation",
        operands: &[Operand::Generation],
        standing: Standing::Second,
        text: b"generation G",
    },
    Form {
        word: b"since",
        operands: &[Operand::Stamp],
        standing: Standing::Opening,
        text: b"since S",
    },
    Form {
        word: b"opening",
        operands: &[Operand::Key, Operand::Value],
        standing: Standing::Opening,
        text: b"opening K V",
    },
    Form {
        word: b"propose",
        operands: &[Operand::Replica, Operand::Client],
        standing: Standing::All,
        text: b"propose R C ",
    },
    Form {
        word: b"sparing",
        operands: &[
            Operand::Spared,
            Operand::Propose,
            Operand::Proposer,
            Operand::Client,
        ],
        standing: Standing::Late,
        text: b"sparing S propose R C ",
    },
    Form {
        word: b"giveup",
        operands: &[Operand::Replica, Operand::Instance],
        standing: Standing::All,
        text: b"giveup R I",
    },
    Form {
        word: b"recover",
        operands: &[Operand::Replica, Operand::Instance],
        standing: Standing::All,
        text: b"recover R I",
    },
    Form {
        word: b"execute",
        operands: &[Operand::Replica, Operand::Instance],
        standing: Standing::Replay,
        text: b"execute R I",
    },
    Form {
        word: b"deliver",
        operands: &[Operand::Message],
        standing: Standing::Replay,
        text: b"deliver M ..",
    },
    Form {
        word: b"flush",
        operands: &[],
        standing: Standing::Replay,
        text: b"flush",
    },
    Form {
        word: b"section",
        operands: &[],
        standing: Standing::Run,
        text: b"section",
    },
    Form {
        word: b"drop",
        operands: &[Operand::Replica, Operand::Receiver, Operand::Place],
        standing: Standing::Run,
        text: b"drop A B J",
    },
    Form {
        word: b"hold",
        operands: &[Operand::Replica, Operand::Receiver, Operand::Place],
        standing: Standing::Run,
        text: b"hold A B J",
    },
    Form {
        word: b"repeat",
        operands: &[Operand::Replica, Operand::Receiver, Operand::Place],
        standing: Standing::Run,
        text: b"repeat A B J",
    },
];

/// The commands. An ask or an act may lack the second key.
pub const COMMANDS: [Form; 9] = [
    Form {
        word: b"get",
        operands: &[Operand::Key],
        standing: Standing::All,
        text: b"get K",
    },
    Form {
        word: b"put",
        operands: &[Operand::Key, Operand::Value],
        standing: Standing::All,
        text: b"put K V",
    },
    Form {
        word: b"del",
        operands: &[Operand::Key],
        standing: Standing::All,
        text: b"del K",
    },
    Form {
        word: b"swap",
        operands: &[Operand::Key, Operand::OtherKey],
        standing: Standing::All,
        text: b"swap K K",
    },
    Form {
        word: b"cas",
        operands: &[Operand::Key, Operand::MaybeValue, Operand::MaybeValue],
        standing: Standing::Late,
        text: b"cas K E N",
    },
    Form {
        word: b"ask",
        operands: &[Operand::Key, Operand::OtherKey, Operand::Body],
        standing: Standing::Late,
        text: b"ask K K B",
    },
    Form {
        word: b"act",
        operands: &[Operand::Key, Operand::OtherKey, Operand::Body],
        standing: Standing::Late,
        text: b"act K K B",
    },
    Form {
        word: b"seal",
        operands: &[Operand::Value],
        standing: Standing::Late,
        text: b"seal V",
    },
    Form {
        word: b"tx",
        operands: &[Operand::Item],
        standing: Standing::Late,
        text: b"tx ITEM ..",
    },
];

/// The form that begins with this word.
pub(crate) fn form_of(forms: &'static [Form], word: &[u8]) -> Option<&'static Form>
    ensures { option_copied result ≡ form_with word.now forms.now }
{
    for form in forms {
        if is_word(word, form.word) {
            return Some(form);
        }
    }
    None
}
