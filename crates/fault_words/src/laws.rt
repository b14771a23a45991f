//! Laws of the sentences of faults. Each is what its function ensures.
ghost use Rattle.std.specs.Prelude.{◌≡◌, Some};
ghost use Rattle.fault_words.specs.Words.{words_of};
ghost use Rattle.protocol_lang.specs.Faults.{code_of as protocol_code, sentence_of as protocol_sentence};
ghost use Rattle.protocol_lang.specs.declared.fault.ParseFault.{ParseFault};
ghost use Rattle.room_spec.specs.Faults.{code_of as block_code, sentence_of as block_sentence};
ghost use Rattle.room_spec.specs.declared.fault.SpecFault.{SpecFault};
ghost use Rattle.transcript.specs.Faults.{code_of as line_code, sentence_of as line_sentence};
ghost use Rattle.transcript.specs.declared.fault.LineFault.{LineFault};
ghost use Rattle.history_checker.specs.Verdicts.{add_code, add_sentence};
ghost use Rattle.history_checker.specs.declared.fault.AddFault.{AddFault};
ghost use Rattle.service_core.specs.Replies.{refusal_code, refusal_sentence};
ghost use Rattle.service_core.specs.declared.reply.Refusal.{Refusal};
ghost use Rattle.room_files.specs.Faults.{text_code, text_sentence};
ghost use Rattle.room_files.specs.declared.fault.TextFault.{TextFault};

/// What is said by a fault's number is what the fault's own type says. So each fault has words, and two faults of one number have the same.
pub fn each_fault_has_its_words()
    ensures protocol { (fault : ParseFault) → words_of (protocol_code fault) ≡ Some (protocol_sentence fault) }
    ensures block { (fault : SpecFault) → words_of (block_code fault) ≡ Some (block_sentence fault) }
    ensures line { (fault : LineFault) → words_of (line_code fault) ≡ Some (line_sentence fault) }
    ensures adding { (fault : AddFault) → words_of (add_code fault) ≡ Some (add_sentence fault) }
    ensures refusal { (refusal : Refusal) → words_of (refusal_code refusal) ≡ Some (refusal_sentence refusal) }
    ensures text { (fault : TextFault) → words_of (text_code fault) ≡ Some (text_sentence fault) }
{}
