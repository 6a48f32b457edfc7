// Tables against the bytes that writing them gives.
#![tactic(auto)]

ghost use Rattle.table_laws.specs.Laws as laws;

// What is read is what was written.
pub fn reading()
    ensures content { laws.ContentLaw }
    ensures table { laws.ReadLaw }
    ensures written { laws.WrittenLaw }
{}

// What is accepted is lawful, and what is lawful is accepted.
pub fn accepting()
    ensures accepted { laws.Accepted }
    ensures writes_back { laws.WritesBack }
    ensures reads_back { laws.ReadsBack }
    ensures written_once { laws.WrittenOnce }
    ensures sound { laws.SoundLaw }
{}

// What is refused breaks as the refusal says.
pub fn refusing()
    ensures content { laws.ContentRefused }
    ensures truthful { laws.RefusalTruthful }
    ensures told { laws.RefusalTold }
{}

// What outputs ask of one another.
pub fn layering()
    ensures layers { laws.LayersLaw }
    ensures circles { laws.CircleLaw }
{}
