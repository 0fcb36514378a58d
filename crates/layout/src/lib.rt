// The real layout is a format of lives, and what is true in every life of a volume by the five calls, in the contracts of functions that do nothing.
#![tactic(auto)]

ghost use Rattle.layout.specs.Laws.{LayoutStands};
ghost use Rattle.layout.specs.Lives.{LivesStand};
ghost use Rattle.layout.specs.Example.{ExampleLives};

// Under every label that keeps its limits, and with every bank of kinds, the real layout keeps the laws of a format, what is found in its log is the plan of a
// life, and its reading of a chain gives what the records say.
pub fn layout_stands()
    ensures { LayoutStands }
{}

// Every life of a volume by the five calls and by cuts has an account, by one choice at each accepted replay, and what Lived says is true of it; and there are
// such lives.
pub fn lives_stand()
    ensures lives { LivesStand }
    ensures example { ExampleLives }
{}
