// A law of the definitions. Nothing runs here.
ghost use Rattle.std.specs.Prelude.{◌≡◌};
ghost use Rattle.dep_form.specs.declared.input.MethodInput.{MethodInput};
ghost use Rattle.dep_form.specs.declared.graph.Graph.{Graph};
ghost use Rattle.dep_form.specs.declared.facts.Facts.{Facts};
ghost use Rattle.dep_form.specs.Graphs.{IsGraphOf};
ghost use Rattle.dep_form.specs.Inputs.{IsInputOf};
ghost use Rattle.slicer_ids.specs.declared.ids.MethodId.{MethodId};
ghost use Rattle.graph_store.specs.declared.pass.GraphPass.{GraphPass};
ghost use Rattle.graph_store.specs.Store.{HasSeen};

/// Equal inputs have equal graphs, so two passes that saw a method with equal inputs saw equal graphs.
pub fn equal_inputs_have_equal_graphs()
    ensures graphs { (i : MethodInput) (g h : Graph) → IsGraphOf i g → IsGraphOf i h → g ≡ h }
    ensures passes { (a b : Facts) (p q : GraphPass) (m : MethodId) (i : MethodInput) (g h : Graph) → IsInputOf a.inputs m i → IsInputOf b.inputs m i → HasSeen a p m g → HasSeen b q m h → g ≡ h }
{}
