ghost use Rattle.zk_http.specs.BodyBytes.{BodiesGrow};
ghost use Rattle.zk_http.specs.Grammar.{AreRequests, AreResponses, AreSizes};
ghost use Rattle.zk_http.specs.Growth.{AreFirstUnits, ArePatient, IsGivenAgain, IsInStream};
ghost use Rattle.zk_http.specs.Standing.{LookWithin, StandAsTheyGrow, UseWhatIsRead};

/// What heads and chunk lines are, by the grammar that `httparse` states (RFC 9112, sections 2 to 5 and
/// 7.1). There is nothing to run.
pub fn heads_and_chunk_lines()
    // A text is the head of a request exactly where it is one of the grammar, whole.
    ensures requests { AreRequests }

    // A text is the head of a response exactly where it is one of the grammar, whole.
    ensures responses { AreResponses }

    // A text tells a size exactly where it is a chunk line of the grammar, whole.
    ensures sizes { AreSizes }
{}

/// What stays of the units when both streams grow, in the subject's own words. There is nothing to run.
///
/// So where no side waits for too much, the units at any moment are the first of those over the whole
/// streams, however the streams came and in whatever order the sides are asked.
pub fn units_stay()
    // A next unit stands in its stream, behind the side's last one or where that ended.
    ensures place { IsInStream }

    // A next unit, but for Unpaired, is given again when its stream has grown and the other side's units go on.
    ensures again { IsGivenAgain }

    // Where sides may wait, the units at a moment are on each side the first of those over streams that have grown.
    ensures first { AreFirstUnits }

    // Where no unit is Unpaired, the units are those where sides may wait.
    ensures patient { ArePatient }
{}

/// What a reader stands for as streams come, in the subject's own words. There is nothing to run.
pub fn readers_stand()
    // A reader that stands for streams stands for them when they have grown.
    ensures grows { StandAsTheyGrow }

    // A reader uses and looks at places that are there, and was told to have ended what has.
    ensures within { LookWithin }

    // A side without a further unit, that waits for the other or was looked through, has used all that is read.
    ensures uses { UseWhatIsRead }
{}

/// What the bytes of a body are as streams come, in the subject's own words. There is nothing to run.
pub fn bodies_stand()
    // What has come of a body stays when its stream grows, and goes on with more places.
    ensures grows { BodiesGrow }
{}
