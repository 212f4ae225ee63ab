//! What a section does, but for an include directive.

ghost use Rattle.std.specs.Prelude.{◌≡◌, map, IfOk};
ghost use Rattle.pp_model.specs.Preprocess.{act, acted, plain};
ghost use Rattle.pp_events.specs.View.{tok_shown};
ghost use Rattle.pp_items.specs.View.{kind_shown};
ghost use Rattle.pp_directives.specs.WorldView.{world_shown};
ghost use Rattle.pp_text.specs.ReadingView.{rules_shown};

use crate::rules::Rules;
use pp_directives::World;
use pp_events::Tok;
use pp_items::SectionKind;
use std::alloc::AllocError;
use std::collections::VecDeque;

/// What a directive does in an active group, behind the text before it.
fn act(
    rules: &Rules,
    world: &mut World,
    kind: SectionKind,
    function_like: bool,
    tokens: VecDeque<Tok>,
) -> Result<(), AllocError>
    ensures { IfOk result (λ _.
        world_shown world.new
        ≡ act (rules_shown rules.now).kinds (kind_shown kind) function_like (map tok_shown tokens.items)
        (world_shown world.old)) }
{
    let alloc = rules.alloc;
    match kind {
        SectionKind::Define => world.define(alloc, function_like, tokens),
        SectionKind::Undef => world.undef(alloc, tokens),
        SectionKind::LineNumber => world.line_number(alloc, &rules.spellings, tokens),
        SectionKind::Error => world.error(alloc, tokens),
        SectionKind::Warning => world.warning(alloc, tokens),
        SectionKind::Embed => world.embed(alloc, &rules.spellings, tokens),
        SectionKind::Pragma => world.pragma(alloc, tokens),
        SectionKind::Unknown => world.unknown(alloc, tokens),
        SectionKind::Null
        | SectionKind::Include
        | SectionKind::Text
        | SectionKind::If
        | SectionKind::Ifdef
        | SectionKind::Ifndef
        | SectionKind::Elif
        | SectionKind::Elifdef
        | SectionKind::Elifndef
        | SectionKind::Else
        | SectionKind::Endif => Ok(()),
    }
}

/// A directive that acts in an active group alone, where it first expands the text before it.
fn acted(
    rules: &Rules,
    world: &mut World,
    kind: SectionKind,
    function_like: bool,
    tokens: VecDeque<Tok>,
) -> Result<(), AllocError>
    ensures { IfOk result (λ _.
        world_shown world.new
        ≡ acted (rules_shown rules.now).kinds (kind_shown kind) function_like (map tok_shown tokens.items)
        (world_shown world.old)) }
{
    if world.acts(rules.alloc, &rules.spellings)? {
        act(rules, world, kind, function_like, tokens)
    } else {
        Ok(())
    }
}

/// What a section does, but for an include directive.
pub(crate) fn plain(
    rules: &Rules,
    world: &mut World,
    kind: SectionKind,
    function_like: bool,
    tokens: VecDeque<Tok>,
) -> Result<(), AllocError>
    ensures { IfOk result (λ _.
        world_shown world.new
        ≡ plain (rules_shown rules.now).kinds (rules_shown rules.now).holds (kind_shown kind) function_like
        (map tok_shown tokens.items) (world_shown world.old)) }
{
    let alloc = rules.alloc;
    let spellings = &rules.spellings;
    let conditions = rules.setting.conditions.as_slice();
    match kind {
        SectionKind::Text => {
            if world.conds.is_active() {
                world.wait(tokens)
            } else {
                Ok(())
            }
        }
        SectionKind::If => world.begin_if(alloc, spellings, conditions, tokens),
        SectionKind::Ifdef => world.begin_ifdef(alloc, true, tokens),
        SectionKind::Ifndef => world.begin_ifdef(alloc, false, tokens),
        SectionKind::Elif => world.elif(alloc, spellings, conditions, tokens),
        SectionKind::Elifdef => world.elifdef(alloc, true, tokens),
        SectionKind::Elifndef => world.elifdef(alloc, false, tokens),
        SectionKind::Else => world.otherwise(alloc),
        SectionKind::Endif => world.endif(alloc),
        _ => acted(rules, world, kind, function_like, tokens),
    }
}
