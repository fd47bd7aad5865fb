//! Laws of the spelling.

ghost use Rattle.std.specs.Prelude.{◌≡◌, ℕ, List};
ghost use Rattle.ep_base.specs.Generations.{HasItsGeneration};
ghost use Rattle.ep_base.specs.Versions.{CanSay};
ghost use Rattle.ep_base.specs.declared.message.Message.{Message};
ghost use Rattle.ep_base.specs.declared.version.Version.{Version};
ghost use Rattle.ep_frame.specs.declared.origin.Origin.{Origin};
ghost use Rattle.ep_frame.specs.Spelling.{Spells, IsOrigin, IsMessage};

/// In each version that can say it, a message in range has one spelling from a sender with an origin; and no bytes spell two
/// versions, senders, origins or messages.
pub fn one_spelling()
    ensures version { (v w : Version) (b : List ℕ) (f g : ℕ) (o p : Origin) (m n : Message) → Spells v b f o m → Spells w b g p n → v ≡ w }
    ensures sender { (v w : Version) (b : List ℕ) (f g : ℕ) (o p : Origin) (m n : Message) → Spells v b f o m → Spells w b g p n → f ≡ g }
    ensures origin { (v w : Version) (b : List ℕ) (f g : ℕ) (o p : Origin) (m n : Message) → Spells v b f o m → Spells w b g p n → o ≡ p }
    ensures message { (v w : Version) (b : List ℕ) (f g : ℕ) (o p : Origin) (m n : Message) → Spells v b f o m → Spells w b g p n → m ≡ n }
    ensures bytes { (v : Version) (b c : List ℕ) (f : ℕ) (o : Origin) (m : Message) → Spells v b f o m → Spells v c f o m → b ≡ c }
    ensures spelled { (v : Version) (f : ℕ) (o : Origin) (m : Message) → HasItsGeneration v → IsOrigin f o → IsMessage m → CanSay v m → (b : List ℕ) × Spells v b f o m }
{}
